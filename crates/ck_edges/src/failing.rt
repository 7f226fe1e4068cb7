ghost use Rattle.std.specs.Prelude.{◌≡◌};
ghost use Rattle.ck_edges.specs.Failing.{fails_after, front_length};

/// After how many bytes at most the call of this number is to fail, where it is listed.
pub(crate) fn failure_of(fails: &[(u64, usize)], call: u64) -> Option<usize>
    ensures { result ≡ fails_after fails.now call }
{
    for (number, most) in fails {
        if *number == call {
            return Some(*most);
        }
    }
    None
}

/// How many of so many bytes a write takes into this room, which is to fail after so many bytes at
/// most, or isn't.
pub(crate) fn count_taken(failure: Option<usize>, room: usize, bytes: usize) -> usize
    ensures { result ≡ front_length failure room bytes }
{
    match failure {
        Some(most) => most.min(room).min(bytes),
        None if bytes <= room => bytes,
        None => 0,
    }
}
