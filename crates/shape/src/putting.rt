// Why a set is not put into a lent buffer, as its file or as its text.

// The set is not well formed; or the buffer is shorter than what is needed, which is told.
#[derive(Clone, Copy, PartialEq, Eq, Debug)]
pub enum PutError {
    BadSet,
    Short(usize),
}
