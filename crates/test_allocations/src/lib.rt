//! For tests: allocations that are numbered, and refused if `checks/programs/refuse_named.c` is loaded before the test, as
//! `checks/programs/built_tests.py` does. Elsewhere none is refused.
#![tactic(auto)]

ghost use Rattle.std.specs.Prelude.{◌<◌};

use std::alloc::Global;

/// More allocations than any call of the tests makes.
const MANY: usize = 100;

/// Names the allocation that is to be refused: the one with this number, from 1, among those from now on, and no other.
pub fn refuse_request(alloc: Global, number: usize)
    requires { number < 4096 }
{
    let _ = Vec::<u8>::with_capacity(alloc, (1 << 20) + number);
}

/// Returns whether the named allocation was attempted, and refused. From now on none is refused.
pub fn was_refused(alloc: Global) -> bool {
    Vec::<u8>::with_capacity(alloc, 1 << 20).is_err()
}

/// Makes a call with its first allocation refused, then with its second, and so on until it makes no more, and returns the
/// result of that last call. If it succeeds in spite of a refusal, or its error isn't an expected one, the result is the
/// number of the allocation and that error.
pub fn made_at_last<R: Drop, E: Drop, F: Fn() -> Result<R, E>, W: Fn(&E) -> bool>(
    alloc: Global,
    call: &F,
    is_wanted: &W,
) -> Result<R, (usize, Option<E>)>
    requires call { F.IsAlwaysCallable call.now }
    requires wanted { W.IsAlwaysCallable is_wanted.now }
{
    for number in 1..MANY {
        refuse_request(alloc, number);
        let answer = call();
        let was_refused = was_refused(alloc);
        match answer {
            Ok(made) if !was_refused => return Ok(made),
            Err(error) if was_refused && is_wanted(&error) => {}
            other => return Err((number, other.err())),
        }
    }
    Err((MANY, None))
}
