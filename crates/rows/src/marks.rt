// Document 02, T-05: whose a stage 1 row is, by its mark. A well-formed row has not both.
#[derive(Clone, Copy, PartialEq, Eq)]
pub enum Mark {
    Unmarked = 0,
    El2 = 1,
    El2E2h = 2,
    Both = 3,
}
