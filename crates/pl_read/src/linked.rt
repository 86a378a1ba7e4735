//! The columns of the texts of a source that were read so far, linked.
ghost use Rattle.std.specs.Prelude.{ℕ, List, [], ◌++◌, IfOk, OnOk, map};
ghost use Rattle.std.specs.List.{concat};
ghost use Rattle.pl_read.specs.Arriving.{CanTake, IsLinked, IsLinkedUpTo, IsLinkedOn};
ghost use Rattle.pl_rows.specs.Texts.{AreReadAt};

use pl_frame::schema::Schema;
use pl_frame::stack::Stack;
use pl_intake::intake::Intake;
use pl_intake::texts::left_behind;
use pl_rows::linking::{Front, link_texts};
use pl_rows::plan::RangePlan;
use pl_rows::stack::empty_stacks;
use pl_rows::whole_pieces::PieceFrame;
use std::alloc::{AllocError, Global};

/// The columns of texts that follow one another, how many rows these have, and where they end.
#[derive(Drop)]
pub(crate) struct Linked {
    pub stacks: Vec<Stack>,
    pub front: Front,
}

/// Columns of no text. Refuses only want of memory.
pub(crate) fn none_linked(
    alloc: Global,
    schema: &Schema,
    plan: &RangePlan<'_>,
) -> Result<Linked, AllocError>
    requires { CanTake plan.now schema.now }
    ensures { IfOk result (IsLinked plan.now schema.now []) }
{
    let stacks = empty_stacks(alloc, schema, plan.projection.places)?;
    let front = Front { rows: 0, end: 0 };
    Ok(Linked { stacks, front })
}

/// Links what was read of texts that follow one another, behind what is linked, as far as it follows without a gap. Answers the bytes behind that.
/// Refuses only want of memory.
pub(crate) fn link_behind(
    alloc: Global,
    linked: &mut Linked,
    texts: &[&[u8]],
    reads: Vec<Option<PieceFrame>>,
    schema: &Schema,
    plan: &RangePlan<'_>,
) -> Result<Vec<u8>, AllocError>
    requires can { CanTake plan.now schema.now }
    requires linked { (before : List ℕ) × IsLinked plan.now schema.now before linked.old }
    requires read { AreReadAt plan.now schema.now (map (λ text. text.now) texts.now) reads.items }
    ensures { (before : List ℕ) → IsLinked plan.now schema.now before linked.old
        → IfOk result (λ left. IsLinkedUpTo plan.now schema.now (before ++ concat (map (λ text. text.now) texts.now)) left.items linked.new) }
{
    let before = linked.front.end;
    let front = link_texts(&mut linked.stacks, linked.front, texts, reads, schema, plan)?;
    linked.front = front;
    let left = left_behind(alloc, texts, &[], front.end - before)?;
    Ok(left)
}

/// Links what was read of texts that follow one another, behind what is linked, as far as it follows without a gap; the bytes behind that are
/// taken back. Tells whether there are none. Refuses only want of memory.
pub(crate) fn link_on(
    alloc: Global,
    linked: &mut Linked,
    texts: &[&[u8]],
    reads: Vec<Option<PieceFrame>>,
    intake: &mut Intake,
    schema: &Schema,
    plan: &RangePlan<'_>,
) -> Result<bool, AllocError>
    requires can { CanTake plan.now schema.now }
    requires linked { (before : List ℕ) × IsLinked plan.now schema.now before linked.old }
    requires read { AreReadAt plan.now schema.now (map (λ text. text.now) texts.now) reads.items }
    ensures { (before : List ℕ) → IsLinked plan.now schema.now before linked.old
        → OnOk result (IsLinkedOn plan.now schema.now (before ++ concat (map (λ text. text.now) texts.now)) intake.old intake.new linked.new) }
{
    let left = link_behind(alloc, linked, texts, reads, schema, plan)?;
    let is_all = left.is_empty();
    intake.put_back(left)?;
    Ok(is_all)
}
