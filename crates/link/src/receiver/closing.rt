// Closing: what the end of a dword changes, and what is said of it.
ghost use Rattle.std.specs.Prelude.{◌≡◌, ◌<◌, ◌≤◌, false, ◌==◌};
ghost use Rattle.link.specs.Readings.{dword as dword_of};
ghost use Rattle.link.specs.Hearing.{settlement, still_pending, before_sync, handed_out, reported, after_dword};

use crate::dword::Dword;
use crate::heard::{BadDword, GoodDword, Heard, Settlement, Span};
use crate::reading::{Readings, Verdict};
use crate::receiver::Receiver;
use crate::state::{Framing, Ledger};

fn still_pending(verdict: Option<Verdict>, pending: u32) -> u32
    ensures { (result ≡ still_pending verdict pending) × (result ≤ pending) }
{
    if verdict.is_none() { pending } else { 0 }
}

impl Receiver {
    // What a verdict makes of the open stretch.
    fn settle(&self, verdict: Option<Verdict>) -> Option<Settlement>
        ensures { result ≡ settlement verdict self.now.state.ledger }
    {
        let Ledger {
            number,
            pending,
            ..
        } = self.state.ledger;
        if pending == 0 {
            return None;
        }
        let span = Span {
            first: number - pending,
            last: number - 1,
        };
        verdict.map(|verdict| match verdict {
            Verdict::Vouches => Settlement::Vouched(span),
            Verdict::Doubts => Settlement::Doubtful(span),
        })
    }

    // The end of a dword before sync.
    #[tactic(auto, unfolding(crate::specs::Hearing::before_sync))]
    pub(super) fn close_before_sync(&mut self, readings: Readings) -> Heard
        requires { self.old.state.ledger.synced ≡ false }
        ensures heard { result ≡ (before_sync readings self.old.state.ledger).heard }
        ensures state { self.new.state ≡ (after_dword self.old.state.disparity (before_sync readings self.old.state.ledger)).state }
    {
        let Some(dword) = readings.dword() else {
            self.state.framing = Framing::empty(true);
            self.state.ledger.count = 0;
            return Heard::Slip;
        };
        self.state.framing = Framing::empty(false);
        if !dword.is_k28_5() {
            return Heard::More;
        }
        if self.state.ledger.count == 2 {
            self.state.ledger = Ledger {
                synced: true,
                number: self.state.ledger.number,
                ..Ledger::fresh()
            };
            return Heard::Gained;
        }
        self.state.ledger.count += 1;
        Heard::More
    }

    // The end of a good dword in sync, which is handed out.
    pub(super) fn hand_out(&mut self, readings: Readings, dword: Dword) -> Heard
        requires { (self.old.state.ledger.number < u32.MAX) × (dword ≡ dword_of readings) }
        ensures heard { result ≡ (handed_out readings self.old.state.ledger).heard }
        ensures state { self.new.state ≡ (after_dword self.old.state.disparity (handed_out readings self.old.state.ledger)).state }
    {
        let verdict = readings.verdict();
        let settlement = self.settle(verdict);
        let ledger = self.state.ledger;
        let debt = if ledger.single {
            ledger.debt.saturating_sub(1)
        } else {
            ledger.debt
        };
        self.state.framing = Framing::empty(false);
        self.state.ledger = Ledger {
            synced: true,
            count: 0,
            number: ledger.number + 1,
            debt,
            single: !ledger.single,
            pending: still_pending(verdict, ledger.pending) + 1,
        };
        Heard::Good(GoodDword {
            settlement,
            number: ledger.number,
            dword,
        })
    }

    // The end of a bad dword in sync, which is reported.
    pub(super) fn report(&mut self, readings: Readings) -> Heard
        requires { self.old.state.ledger.number < u32.MAX }
        ensures heard { result ≡ (reported readings self.old.state.ledger (self.old.state.ledger.debt == 3)).heard }
        ensures state { self.new.state ≡ (after_dword self.old.state.disparity (reported readings self.old.state.ledger (self.old.state.ledger.debt == 3))).state }
    {
        let settlement = self.settle(readings.verdict());
        let ledger = self.state.ledger;
        let lost = ledger.debt == 3;
        let debt = if lost { 0 } else { ledger.debt + 1 };
        self.state.framing = Framing::empty(lost);
        self.state.ledger = Ledger {
            synced: !lost,
            number: ledger.number + 1,
            debt,
            ..Ledger::fresh()
        };
        Heard::Bad(BadDword {
            settlement,
            number: ledger.number,
            mask: readings.mask(),
            lost,
        })
    }
}
