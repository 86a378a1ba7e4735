//! Texts of a source in their order: those that are linked, and behind them those that were handed out and are not linked yet.
ghost use Rattle.std.specs.Prelude.{◌≡◌, ◌++◌, [], ℕ, List, IfOk, OnOk};
ghost use Rattle.std.specs.List.{concat};
ghost use Rattle.pl_read.specs.Arriving.{CanTake, IsLinkedUpTo};
ghost use Rattle.pl_rows.specs.declared.whole_pieces.PieceFrame.{PieceFrame};
ghost use Rattle.pl_rows.specs.WholePieces.{IsPieceFrame};

use crate::linked::{Linked, link_behind};
use pl_frame::schema::Schema;
use pl_intake::handed::Handing;
use pl_intake::intake::Intake;
use pl_intake::pending::Pending;
use pl_rows::plan::RangePlan;
use pl_rows::whole_pieces::PieceFrame;
use std::alloc::{AllocError, Global};

/// Texts that follow one another: the columns of those that are linked, what is left of the last of these, and those behind it.
#[derive(Drop)]
pub(crate) struct Line<'a, K: Handing<PieceFrame>> {
    pub linked: Linked,
    pub left: Vec<u8>,
    pub pending: Pending<'a, PieceFrame, K>,
}

impl<'a, K: Handing<PieceFrame>> Line<'a, K> {
    /// Texts that are linked, and none behind them.
    pub fn new(alloc: Global, linked: Linked) -> Line<'a, K>
        ensures linked { result.linked ≡ linked }
        ensures left { result.left.items ≡ [] }
        ensures pending { result.pending ≡ [] }
    {
        Line {
            linked,
            left: Vec::new(alloc),
            pending: Pending::new(alloc),
        }
    }

    // Links the first of the texts that are not linked, as far as what was read of it follows.
    fn link_first(
        &mut self,
        alloc: Global,
        schema: &Schema,
        plan: &RangePlan<'_>,
    ) -> Result<(), AllocError>
        requires can { CanTake plan.now schema.now }
        requires meant { (text : List ℕ) (read : PieceFrame) → K.reads text read → IsPieceFrame plan.now schema.now text read }
        requires none { self.old.left.items ≡ [] }
        requires line { (text : List ℕ) × IsLinkedUpTo plan.now schema.now text (self.old.left.items ++ concat self.old.pending) self.old.linked }
        ensures { (text : List ℕ) → IsLinkedUpTo plan.now schema.now text (self.old.left.items ++ concat self.old.pending) self.old.linked
            → OnOk result (IsLinkedUpTo plan.now schema.now text (self.new.left.items ++ concat self.new.pending) self.new.linked) }
    {
        let Some((text, read)) = self.pending.take_first() else {
            return Ok(());
        };
        let mut reads = Vec::new(alloc);
        reads.push(read)?;
        self.left = link_behind(
            alloc,
            &mut self.linked,
            &[text.as_slice()],
            reads,
            schema,
            plan,
        )?;
        self.pending.keep_room(text);
        Ok(())
    }

    /// Links texts as long as what was read of them follows without a gap. Refuses only want of memory.
    pub fn link(
        &mut self,
        alloc: Global,
        schema: &Schema,
        plan: &RangePlan<'_>,
    ) -> Result<(), AllocError>
        requires can { CanTake plan.now schema.now }
        requires meant { (text : List ℕ) (read : PieceFrame) → K.reads text read → IsPieceFrame plan.now schema.now text read }
        requires line { (text : List ℕ) × IsLinkedUpTo plan.now schema.now text (self.old.left.items ++ concat self.old.pending) self.old.linked }
        ensures { (text : List ℕ) → IsLinkedUpTo plan.now schema.now text (self.old.left.items ++ concat self.old.pending) self.old.linked
            → OnOk result (IsLinkedUpTo plan.now schema.now text (self.new.left.items ++ concat self.new.pending) self.new.linked) }
    {
        for _ in 0..self.pending.len() {
            if !self.left.is_empty() || !self.pending.is_next_read() {
                return Ok(());
            }
            self.link_first(alloc, schema, plan)?;
        }
        Ok(())
    }

    /// Gives back what is not linked, in front of what the source gives next. Tells whether there is none. Refuses only want of memory.
    pub fn put_back(self, alloc: Global, intake: &mut Intake) -> Result<(Linked, bool), AllocError>
        ensures linked { IfOk result (λ r. r.0 ≡ self.entry.linked) }
        ensures rest { OnOk result (intake.new.rest.items ≡ (self.entry.left.items ++ concat self.entry.pending) ++ intake.old.rest.items) }
        ensures size { intake.new.size ≡ intake.old.size }
        ensures ended { intake.new.is_ended ≡ intake.old.is_ended }
    {
        let Line {
            linked,
            left,
            pending,
        } = self;
        let is_all = pending.is_empty() && left.is_empty();
        pending.put_back(alloc, intake)?;
        intake.put_back(left)?;
        Ok((linked, is_all))
    }
}
