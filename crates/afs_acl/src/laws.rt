//! What holds of all access lists.

ghost use Rattle.std.specs.Prelude.{◌≡◌, List, ℕ, Ok};
ghost use Rattle.afs_num.specs.declared.acls.AccessList.{AccessList};
ghost use Rattle.spec_ideal.specs.AccessLists.{IsAccessList, acl_at, acl_text};

/// A list that has a text is read from it again.
pub fn texts_are_read_again()
    ensures { (a : AccessList) → IsAccessList a → acl_at (acl_text a) ≡ Ok a }
{}

/// A text that is read as a list is that list's only text.
pub fn read_are_texts()
    ensures { (text : List ℕ) (a : AccessList) → acl_at text ≡ Ok a → IsAccessList a × (text ≡ acl_text a) }
{}
