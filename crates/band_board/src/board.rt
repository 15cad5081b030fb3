//! The board's words and slots.

ghost use Rattle.std.specs.Prelude.{◌≡◌, ℕ, ◌*◌, ◌<◌, length, slice_index, IfOk};
ghost use Rattle.std.specs.Arc.{arc_value};

use crate::front::Front;
use crate::view::{Parcel, View};
use crate::work::Work;
use atomic_table::{Table, TableRule};
use ocs_base::OutOfMemory;
use std::alloc::Global;
use std::marker::PhantomData;
use std::snapshot::Snapshot;
use std::sync::Arc;

/// How many places there are for outstanding bands.
pub(crate) const PLACES: usize = 16;

/// The index of the word that marks the close.
pub(crate) const CLOSED: usize = 16;

/// The rule of the board for a kind of work. No value of it is made.
pub struct Rules<W> {
    work: PhantomData<W>,
}

impl<W: Work> TableRule<Option<Parcel<W::Job, W::Drawn>>, View<W::Run>, Snapshot<W::Run>>
    for Rules<W> {
    ghost use Rattle.band_board.specs.BoardRule.{BoardRule};
    ghost use Rattle.band_board.specs.View.{first_view};

    ghost holds = { λ key. BoardRule W.right_job W.right_drawn key.value };

    ghost first = { λ key. first_view key.value };
}

/// A board of bands, shared by the front and the hands through `&`.
///
/// Word j of the first sixteen is 256 n + 4 hand + phase with n modulo 16 = j, where the phase is
/// 0 vacant, 1 offered, 2 claimed or 3 drawn. Word 16 is 0, and 1 once the board is closed.
#[derive(Drop)]
pub struct Board<W: Work> {
    pub(crate) table: Table<
        Option<Parcel<W::Job, W::Drawn>>,
        View<W::Run>,
        Snapshot<W::Run>,
        Rules<W>,
        Global,
    >,
    ghost words: { table.shared.table_id.words ≡ 17 },
    ghost slots: { table.shared.table_id.slots ≡ 16 },
}

impl<W: Work> Board<W> {
    ghost use Rattle.band_board.specs.Answers.{front_view, IsFrontOf};
    ghost use Rattle.band_board.specs.View.{new_front};

    /// A board for a run, and its front, which has nothing published. The rule alone reads the run:
    /// the board does not keep it.
    pub fn new(alloc: Global, run: Arc<W::Run>) -> Result<(Board<W>, Front<W>), OutOfMemory>
        ensures front { IfOk result (λ made. IsFrontOf made.0 made.1) }
        ensures view { IfOk result (λ made. front_view made.1 ≡ new_front (arc_value run)) }
    {
        let words = first_words();
        let about = Snapshot::of(&*run);
        let (table, seat) = Table::vacant(alloc, &words, PLACES, &about)?;
        let board = Board { table };
        let front = Front::of(&board, seat);
        Ok((board, front))
    }
}

// Each place vacant with its own number, and the board not closed.
fn first_words() -> [u64; 17]
    ensures size { length result ≡ 17 }
    ensures places { (i : ℕ) → i < 16 → slice_index result i ≡ 256 * i }
    ensures open { slice_index result 16 ≡ 0 }
{
    let mut words = [0; 17];
    for place in 0..PLACES {
        words[place] = 256 * place as u64;
    }
    words
}
