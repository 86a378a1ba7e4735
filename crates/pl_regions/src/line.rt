//! Texts of a source in their order: those whose lines are kept, and behind them those that were handed out.
ghost use Rattle.std.specs.Prelude.{◌≡◌, ◌++◌, [], ◌≤◌, ℕ, List, Option, IfOk, IfSome, OnOk, length};
ghost use Rattle.std.specs.List.{concat};
ghost use Rattle.pl_frame.specs.Dialect.{IsDialect};
ghost use Rattle.pl_frame.specs.Schema.{Entry};
ghost use Rattle.pl_scan.specs.Dialect.{marks_of, comment_of};
ghost use Rattle.pl_text.specs.FrameText.{WriteOptions};
ghost use Rattle.pl_rows.specs.declared.plan.RangePlan.{RangePlan};
ghost use Rattle.pl_intake.specs.declared.intake.Intake.{Intake};
ghost use Rattle.pl_regions.specs.Arriving.{HasInLine, IsFrontKept, IsPrintedUpTo};
ghost use Rattle.pl_regions.specs.declared.kept.Kept.{Kept};

use crate::kept::{Kept, keep_front};
use pl_intake::handed::{Handing, ReadText};
use pl_intake::intake::Intake;
use pl_intake::pending::Pending;
use std::alloc::{AllocError, Global};

/// Texts that follow one another: the lines of those that are kept, what is left of the last of these, and those behind it.
#[derive(Drop)]
pub(crate) struct Line<'a, K: Handing<Kept>> {
    pub kept: Kept,
    pub left: Vec<u8>,
    pub pending: Pending<'a, Kept, K>,
}

impl<'a, K: Handing<Kept>> Line<'a, K> {
    /// Texts whose lines are kept, and none behind them.
    pub fn new(alloc: Global, kept: Kept) -> Line<'a, K>
        ensures kept { result.kept ≡ kept }
        ensures left { result.left.items ≡ [] }
        ensures pending { result.pending ≡ [] }
    {
        Line {
            kept,
            left: Vec::new(alloc),
            pending: Pending::new(alloc),
        }
    }

    // Keeps the lines of the first of the texts behind, as far as it was printed, but none where all have more rows than a number, if there is one.
    fn keep_first(&mut self, alloc: Global, most: Option<usize>) -> Result<(), AllocError>
        requires inside { (text : List ℕ) (front : Kept) → K.reads text front → front.end ≤ length text }
        requires none { self.old.left.items ≡ [] }
        requires few { IfSome most (λ most. self.old.kept.rows ≤ most) }
        ensures line { (plan : RangePlan) (schema : List Entry) (o : WriteOptions) (text : List ℕ) → IsDialect (marks_of plan.dialect) (comment_of plan.dialect)
            → ((text : List ℕ) (front : Kept) → K.reads text front → IsFrontKept plan schema o text front)
            → IsPrintedUpTo plan schema o text (self.old.left.items ++ concat self.old.pending) self.old.kept
            → OnOk result (IsPrintedUpTo plan schema o text (self.new.left.items ++ concat self.new.pending) self.new.kept) }
        ensures few { OnOk result (IfSome most (λ most. self.new.kept.rows ≤ most)) }
    {
        let Some((text, front)) = self.pending.take_first() else {
            return Ok(());
        };
        let front = match front {
            Some(front) => front,
            None => {
                self.left.extend_from_slice(text.as_slice())?;
                return Ok(());
            }
        };
        self.left = keep_front(alloc, &mut self.kept, text.as_slice(), front, most)?;
        self.pending.keep_room(text);
        Ok(())
    }

    // Keeps the lines of texts as long as they are known and nothing is left of one.
    fn keep_known(&mut self, alloc: Global, most: Option<usize>) -> Result<(), AllocError>
        requires inside { (text : List ℕ) (front : Kept) → K.reads text front → front.end ≤ length text }
        requires few { IfSome most (λ most. self.old.kept.rows ≤ most) }
        ensures line { (plan : RangePlan) (schema : List Entry) (o : WriteOptions) (text : List ℕ) → IsDialect (marks_of plan.dialect) (comment_of plan.dialect)
            → ((text : List ℕ) (front : Kept) → K.reads text front → IsFrontKept plan schema o text front)
            → IsPrintedUpTo plan schema o text (self.old.left.items ++ concat self.old.pending) self.old.kept
            → OnOk result (IsPrintedUpTo plan schema o text (self.new.left.items ++ concat self.new.pending) self.new.kept) }
        ensures few { OnOk result (IfSome most (λ most. self.new.kept.rows ≤ most)) }
    {
        for _ in 0..self.pending.len() {
            if !self.left.is_empty() || !self.pending.is_next_read() {
                return Ok(());
            }
            self.keep_first(alloc, most)?;
        }
        Ok(())
    }

    /// Keeps the lines of texts, of which these were printed meanwhile, as long as they are known and nothing is left of one, but no more rows than a
    /// number, if there is one. Refuses only want of memory.
    pub fn keep(
        &mut self,
        alloc: Global,
        printed: Vec<ReadText<'a, Kept, K>>,
        most: Option<usize>,
    ) -> Result<(), AllocError>
        requires inside { (text : List ℕ) (front : Kept) → K.reads text front → front.end ≤ length text }
        requires few { IfSome most (λ most. self.old.kept.rows ≤ most) }
        ensures line { (plan : RangePlan) (schema : List Entry) (o : WriteOptions) (before now : Option (List ℕ)) (limit : ℕ) (first intake : Intake) → IsDialect (marks_of plan.dialect) (comment_of plan.dialect)
            → ((text : List ℕ) (front : Kept) → K.reads text front → IsFrontKept plan schema o text front)
            → HasInLine plan schema o before now limit first intake self.old.kept self.old.left.items self.old.pending
            → OnOk result (HasInLine plan schema o before now limit first intake self.new.kept self.new.left.items self.new.pending) }
        ensures few { OnOk result (IfSome most (λ most. self.new.kept.rows ≤ most)) }
    {
        self.pending.keep(printed);
        self.keep_known(alloc, most)?;
        Ok(())
    }

    /// Gives back what is not kept, in front of what the source gives next. Tells whether there is none. Refuses only want of memory.
    pub fn put_back(self, alloc: Global, intake: &mut Intake) -> Result<(Kept, bool), AllocError>
        ensures kept { IfOk result (λ r. r.0 ≡ self.entry.kept) }
        ensures rest { OnOk result (intake.new.rest.items ≡ (self.entry.left.items ++ concat self.entry.pending) ++ intake.old.rest.items) }
        ensures size { intake.new.size ≡ intake.old.size }
        ensures ended { intake.new.is_ended ≡ intake.old.is_ended }
    {
        let Line {
            kept,
            left,
            pending,
        } = self;
        let is_all = pending.is_empty() && left.is_empty();
        pending.put_back(alloc, intake)?;
        intake.put_back(left)?;
        Ok((kept, is_all))
    }
}
