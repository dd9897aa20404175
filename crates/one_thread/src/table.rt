//! The table for one thread, whatever makes the steps of its calls.
ghost use Rattle.std.specs.Prelude.{◌≡◌, [], All, None, IfOk, IsOkUnless, length};
ghost use Rattle.slot_history.specs.Bounds.{IsShape};
ghost use Rattle.slot_station.specs.declared.reply.MakeRefusal.TheVariants.{OutOfMemory};
ghost use Rattle.slot_station.specs.Log.{calls_of};
ghost use Rattle.slot_station.specs.Shapes.{IsRefusedBy, refusal_of};

use crate::object::SlotObject;
use slot_history::shape::Shape;
use slot_station::History;
use slot_station::limits::shape_of;
use slot_station::reply::MakeRefusal;
use slot_station::station::Fits;
use std::alloc::{AllocError, Global};
use std::marker::Model;
use std::snapshot::Snapshot;

/// The slot object for one thread. Its calls are those of its seats. Each takes time that does not
/// grow with the history, of which no bytes are kept.
#[derive(Drop)]
pub struct OneTable<B: Fits, O: SlotObject> {
    pub(crate) object: O,
    /// Of slot s and worker w at `s * workers + w`.
    pub(crate) cells: Vec<Option<B>>,
    pub(crate) subject: Snapshot<B::Subject>,
}

impl<B: Fits, O: SlotObject> Model for OneTable<B, O> {
    ghost use Rattle.one_thread.specs.Tables.{TableStory, IsTableKept, table_of};

    ghost Value = { TableStory B.Subject };

    ghost view = { λ table. table_of (O.story table.object) table.subject.value };

    ghost invariant = { λ table. IsTableKept B.Fits
        (table_of (O.story table.object) table.subject.value) table.cells.items };
}

impl<B: Fits, O: SlotObject> OneTable<B, O> {
    /// A table whose slots are empty, whose cells hold None, and with no notices. `subject` is what
    /// it serves, for contracts alone, and `queries` the number of the subject's queries. BadSlots
    /// is the answer exactly outside 1 to 128 slots, else BadWorkers exactly outside 1 to 64
    /// workers, else BadQueries exactly past 4,096 queries. Else only OutOfMemory can come.
    pub fn make(
        alloc: Global,
        slots: u32,
        workers: u32,
        queries: u32,
        subject: Snapshot<B::Subject>,
    ) -> Result<OneTable<B, O>, MakeRefusal>
        requires { queries ≡ B.queries subject.value }
        ensures refused { IsRefusedBy (refusal_of slots workers queries)
            (IsOkUnless result OutOfMemory) result }
        ensures table { IfOk result (λ table. table ≡ record {
          shape = record { workers = workers; slots = slots; queries = queries };
          subject = subject.value;
          log = [];
        }) }
    {
        let shape = shape_of(slots, workers, queries)?;
        let Ok(table) = make_with(alloc, shape, subject) else {
            return Err(MakeRefusal::OutOfMemory);
        };
        Ok(table)
    }

    /// How large the table is.
    pub fn shape(&self) -> Shape
        ensures { result ≡ self.now.shape }
    {
        self.object.shape()
    }

    /// The object that makes the steps of the calls.
    pub fn object(&self) -> &O
        ensures { O.story result.now ≡ record { shape = self.now.shape; log = self.now.log } }
    {
        &self.object
    }

    /// Hands the history over. It takes no memory.
    pub fn end(self) -> History
        ensures { result ≡ calls_of self.log }
    {
        let OneTable {
            object,
            cells,
            subject,
        } = self;
        drop(cells);
        drop(subject);
        History::of(object.into_log().into_badge())
    }
}

/// A table of this shape, which nobody has used.
fn make_with<B: Fits, O: SlotObject>(
    alloc: Global,
    shape: Shape,
    subject: Snapshot<B::Subject>,
) -> Result<OneTable<B, O>, AllocError>
    requires shape { IsShape shape }
    requires queries { shape.queries ≡ B.queries subject.value }
    ensures { IfOk result (λ table. table
        ≡ record { shape = shape; subject = subject.value; log = [] }) }
{
    let count = shape.slots as usize * shape.workers as usize;
    let cells = empty_cells(alloc, count)?;
    let object = O::make(alloc, shape)?;
    Ok(OneTable {
        object,
        cells,
        subject,
    })
}

/// So many cells, each of which holds None.
fn empty_cells<B: Fits>(alloc: Global, count: usize) -> Result<Vec<Option<B>>, AllocError>
    ensures count { IfOk result (λ cells. length cells.items ≡ count) }
    ensures none { IfOk result (λ cells. All (λ x. x ≡ None) cells.items) }
{
    let mut cells = Vec::with_capacity(alloc, count)?;
    for _ in 0..count {
        cells.push(None)?;
    }
    Ok(cells)
}
