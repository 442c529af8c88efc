//! What holds of all messages.

ghost use Rattle.std.specs.Prelude.{◌≡◌, ◌++◌, List, [], ℕ, ℤ, Option};
ghost use Rattle.afs_num.specs.declared.types.Head.{Head};
ghost use Rattle.afs_num.specs.declared.calls.FsCall.{FsCall};
ghost use Rattle.afs_num.specs.declared.calls.FsReply.{FsReply};
ghost use Rattle.afs_fields.specs.TableRows.{rows_of};
ghost use Rattle.spec_model.specs.Rpc.{SpellsCall, SpellsReply};
ghost use Rattle.spec_model.specs.FsRows.{call_rows, reply_rows, fs_calls, fs_replies};

use crate::tables::{CALLS, REPLIES};

/// The tables are the rows of the File Server/Cache Manager Interface, each with its opcode and the kinds of its
/// fields, in order.
pub fn tables_are_the_rows()
    ensures calls { rows_of CALLS.rows ≡ call_rows }
    ensures replies { rows_of REPLIES.rows ≡ reply_rows }
{}

/// No spelling of a call begins another, and none spells two calls.
pub fn no_call_begins_another()
    ensures { (head other_head : Head) (user other_user : List ℕ) (call other_call : FsCall) (bytes more : List ℕ) →
        SpellsCall fs_calls head user call bytes → SpellsCall fs_calls other_head other_user other_call (bytes ++ more) →
        (more ≡ []) × (head ≡ other_head) × (user ≡ other_user) × (call ≡ other_call) }
{}

/// No spelling of a reply begins another, and none spells two replies.
pub fn no_reply_begins_another()
    ensures { (head other_head : Head) (code other_code : ℤ) (reply other_reply : Option FsReply) (bytes more : List ℕ) →
        SpellsReply fs_replies head code reply bytes → SpellsReply fs_replies other_head other_code other_reply (bytes ++ more) →
        (more ≡ []) × (head ≡ other_head) × (code ≡ other_code) × (reply ≡ other_reply) }
{}
