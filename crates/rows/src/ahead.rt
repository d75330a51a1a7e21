//! What a caller that reads ahead asks before a row call.
ghost use Rattle.std.specs.Prelude.{◌≡◌, ℕ, ◌+◌, ◌<◌, ◌≤◌, min, false, length, ℤ, ◌+ℤ◌, Ok};
ghost use Rattle.extent.specs.Sizes.{Within};
ghost use Rattle.ledger.specs.Ledger.{Item};
ghost use Rattle.ledger.specs.Calls.{rule_verdict, template_at};
ghost use Rattle.ledger.specs.Naturals.{beyond, natural};
ghost use Rattle.rows.specs.Good.{open_in};
ghost use Rattle.rows.specs.Answers.{unless};
ghost use Rattle.rows.specs.Views.{templates_at, room_at, ledger_at, SoundAt};

use crate::rows::Rows;
use extent::Extent;
use faults::Fault;
use ledger::records::Room;
use ledger::sums::outside;

impl<'a, 'p, E: Extent> Rows<'a, 'p, E> {
    /// Whether a line without entries may be added.
    pub fn check_rule(&self) -> Result<(), Fault>
        ensures answer { result ≡ unless (rule_verdict (templates_at self.now) (room_at self.now) (ledger_at self.now)) tt }
        ensures room { result ≡ Ok tt → (open_in self.now.draft.state.stage ≡ false) × (self.now.draft.state.lines + 1 ≤ min 1024 (length self.now.draft.memory.lines.now)) }
    {
        let state = self.draft.state;
        state.check_closed()?;
        self.draft.memory.check_room(Room {
            items: state.laid.items,
            entries: state.laid.entries,
            lines: state.lines + 1,
            text: state.laid.text,
        })
    }

    /// Whether u, so much more and v leave the range of widths in a row's first cell.
    pub fn first_exceeds(&self, more: E) -> bool
        ensures { (wide : Item → ℕ → ℤ) → SoundAt E.count E.num wide self.now → ((k : ℕ) → k < E.count → Within 1073741823 (E.num more k))
            → result ≡ beyond E.count (λ k. (natural wide (template_at (templates_at self.now) 0).u k +ℤ E.num more k) +ℤ natural wide (template_at (templates_at self.now) 0).v k) }
    {
        let widths = self.column(0).widths;
        let sum = widths.u.sum(more);
        outside(sum.sum(widths.v))
    }
}
