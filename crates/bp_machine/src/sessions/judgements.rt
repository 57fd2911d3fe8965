//! How a session judges an attempt before it makes it.
ghost use Rattle.std.specs.Prelude.{◌≡◌, MatchResult};
ghost use Rattle.bp_machine.specs.Sessions.{IsAnswer, given_bit};
ghost use Rattle.bp_machine.specs.Transitions.{IsKeptBit, IsBitRefusal, IsJudged, IsKeptRefusal};

use crate::calls::{AskError, Call};
use crate::sessions::{Judged, Session, draw};
use bp_flat::steps_alike;

impl Session {
    /// Returns the choice bit of the next attempt of a thread, with this given bit or none.
    fn bit_of_call(&self, thread: u32, given: Option<bool>) -> Result<bool, AskError>
        ensures { MatchResult result
            (IsKeptBit self.now.choices thread given)
            (IsBitRefusal self.now.choices thread given) }
    {
        match (self.choices.get(thread as usize), given) {
            (Some(choices), None) => Ok(choices.peek()),
            (None, Some(bit)) => Ok(bit),
            (Some(_), Some(_)) => Err(AskError::Seeded),
            (None, None) => Err(AskError::Unseeded),
        }
    }

    /// Returns the bit to give for a recorded attempt with this bit.
    pub(super) fn given_bit(&self, bit: bool) -> Option<bool>
        ensures { result ≡ given_bit self.now.setup bit }
    {
        if self.setup.seed().is_some() {
            None
        } else {
            Some(bit)
        }
    }

    /// Returns the transition for an attempt of the thread, with this given bit or none.
    #[inline(always)]
    pub(super) fn judged(&self, thread: u32, given: Option<bool>) -> Result<Judged, AskError>
        ensures { MatchResult result
            (IsJudged self.now thread given)
            (IsKeptRefusal self.now thread given) }
    {
        let Some(guest) = self.machine.thread(thread) else {
            return Err(AskError::NoThread);
        };
        if guest.is_terminated(self.setup.calls()) {
            return Err(AskError::Terminated);
        }
        let bit = self.bit_of_call(thread, given)?;
        let contexts = self.setup.contexts();
        let transition = self.machine.judge(&self.code, contexts, thread, guest, bit);
        let reply = transition.reply();
        Ok(Judged {
            call: Call { thread, bit, reply },
            transition,
        })
    }

    /// Makes an attempt of the thread, with this given bit or none.
    #[inline(always)]
    pub(super) fn make_given(&mut self, thread: u32, given: Option<bool>) -> Result<Call, AskError>
        ensures { IsAnswer self.old thread given self.new result }
    {
        steps_alike(&self.code);
        let made = self.judged(thread, given)?;
        self.machine.reserve(thread, made.transition)?;
        self.machine.make(thread, made.transition);
        draw(&mut self.choices, thread as usize);
        Ok(made.call)
    }
}
