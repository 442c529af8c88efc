//! What holds of all messages.

ghost use Rattle.std.specs.Prelude.{◌≡◌, ◌++◌, List, [], ℕ, ℤ, Option};
ghost use Rattle.afs_num.specs.declared.types.Head.{Head};
ghost use Rattle.afs_num.specs.declared.location_calls.LocCall.{LocCall};
ghost use Rattle.afs_num.specs.declared.location_calls.LocReply.{LocReply};
ghost use Rattle.afs_fields.specs.TableRows.{rows_of};
ghost use Rattle.spec_shape.specs.Rows.{table_rows};
ghost use Rattle.spec_model.specs.Rpc.{SpellsCall, SpellsReply};
ghost use Rattle.spec_model.specs.LocRows.{loc_calls, loc_replies};

use crate::tables::{CALLS, REPLIES};

/// The tables are the rows of the Volume Location Interface, each with its opcode and the kinds of its
/// fields, in order.
pub fn tables_are_the_rows()
    ensures calls { rows_of CALLS.rows ≡ table_rows loc_calls }
    ensures replies { rows_of REPLIES.rows ≡ table_rows loc_replies }
{}

/// No spelling of a call begins another, and none spells two calls.
pub fn no_call_begins_another()
    ensures { (head other_head : Head) (user other_user : List ℕ) (call other_call : LocCall) (bytes more : List ℕ) →
        SpellsCall loc_calls head user call bytes → SpellsCall loc_calls other_head other_user other_call (bytes ++ more) →
        (more ≡ []) × (head ≡ other_head) × (user ≡ other_user) × (call ≡ other_call) }
{}

/// No spelling of a reply begins another, and none spells two replies.
pub fn no_reply_begins_another()
    ensures { (head other_head : Head) (code other_code : ℤ) (reply other_reply : Option LocReply) (bytes more : List ℕ) →
        SpellsReply loc_replies head code reply bytes → SpellsReply loc_replies other_head other_code other_reply (bytes ++ more) →
        (more ≡ []) × (head ≡ other_head) × (code ≡ other_code) × (reply ≡ other_reply) }
{}
