/// Whose operation it is: a user's, or at set-up that of one with all rights.
#[derive(Clone, Copy)]
pub enum Caller<'a> {
    User(&'a [u8]),
    AllRights,
}
