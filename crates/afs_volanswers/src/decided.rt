//! What can be decided on a call.

ghost use Rattle.std.specs.Prelude.{◌≡◌};

use afs_message::spelled::SpelledMessage;
use afs_num::records::RecordBody;
use afs_voldecisions::replies::Answer;
use afs_voldecisions::transactions::{After, Transactions};
use afs_voldecisions::verdicts::Dispatch;
use afs_volume::Volume;

/// What is written, with what the call is answered. The stamp is the one that is raised for the family, 0 and 0 where none is. It has the
/// volume whose promises are withdrawn, the transactions after it, and the volume that was made to judge the call.
pub struct Saving {
    pub answer: Answer,
    pub body: RecordBody,
    pub family: u32,
    pub stamp: u32,
    pub withdraws: Option<u32>,
    pub transactions: Transactions,
    pub made: Option<Volume>,
}

/// It ends by a drop of its own: what holds it has one drop to prove where it ends.
impl Drop for Saving {
    fn drop(self) {
        let Saving {
            answer,
            body,
            family: _,
            stamp: _,
            withdraws: _,
            transactions: _,
            made: _,
        } = self;
        drop(answer);
        drop(body);
    }
}

impl Saving {
    /// Its parts. It takes no memory.
    pub fn into_parts(
        self,
    ) -> (
        Answer,
        RecordBody,
        u32,
        u32,
        Option<u32>,
        Transactions,
        Option<Volume>,
    )
        ensures { result ≡ (self.answer, self.body, self.family, self.stamp, self.withdraws, self.transactions, self.made) }
    {
        let Saving {
            answer,
            body,
            family,
            stamp,
            withdraws,
            transactions,
            made,
        } = self;
        (answer, body, family, stamp, withdraws, transactions, made)
    }
}

/// What becomes of a call. It gets no answer, or its caller is told this server's boot number, or its kept reply is sent again. Or it is
/// answered so, and then this becomes of the transactions. Or a dump is sent. Or this is written, where there is room for its record.
#[derive(Drop)]
pub enum Decided {
    Drops,
    TellsBoot,
    Repeats(SpelledMessage),
    Answers(Answer, After),
    Dispatches(Dispatch),
    Saves(Saving),
}
