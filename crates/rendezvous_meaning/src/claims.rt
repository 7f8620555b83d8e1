//! Whether the claims of a protocol hold where its remotes stand.

ghost use Rattle.std.specs.Prelude.{◌≡◌, ◌≤◌, ◌^◌, ℕ, length, map};
ghost use Rattle.rendezvous_meaning.specs.Claims as meant;
ghost use Rattle.rendezvous_meaning.specs.Claims.{remote_states};

use proto_model::{NumberedClaim, Part, RvConfig, has_number};

/// What stands in a state: a remote, in whatever form.
pub trait InState {
    /// The number of the state.
    ghost state: { Self → ℕ };

    /// The number of the state, below 256.
    fn state(&self) -> u8
        ensures { result ≡ state self.now };
}

impl InState for Part {
    ghost state = { λ part. part.state };

    fn state(&self) -> u8 {
        self.state
    }
}

/// A state by its number.
impl InState for u8 {
    ghost state = { λ state. state };

    fn state(&self) -> u8 {
        *self
    }
}

// How many remotes stand in a state of the set.
fn count_in<S: InState>(remotes: &[S], set: u64) -> usize
    ensures { result ≡ meant.count_in set (map S.state remotes.now) }
{
    remotes
        .iter()
        .filter(|remote| has_number(set, remote.state()))
        .count()
}

// How many remotes stand in this state.
fn count_at<S: InState>(remotes: &[S], state: u8) -> usize
    ensures { result ≡ meant.count_at state (map S.state remotes.now) }
{
    remotes
        .iter()
        .filter(|remote| remote.state() == state)
        .count()
}

// Whether no two different remotes stand the one in x and the other in y.
fn is_apart<S: InState>(remotes: &[S], x: u8, y: u8) -> bool
    ensures { result ≡ meant.is_apart x y (map S.state remotes.now) }
{
    if x == y {
        return count_at(remotes, x) <= 1;
    }
    count_at(remotes, x) == 0 || count_at(remotes, y) == 0
}

// Whether the claim holds of the remotes.
fn holds<S: InState>(claim: NumberedClaim, remotes: &[S]) -> bool
    ensures { result ≡ meant.holds claim (map S.state remotes.now) }
{
    match claim {
        NumberedClaim::AtMost(most, set) => count_in(remotes, set) <= most as usize,
        NumberedClaim::Apart(x, y) => is_apart(remotes, x, y),
    }
}

// The place of the first claim that doesn't hold of the remotes.
fn first_broken<S: InState>(claims: &[NumberedClaim], remotes: &[S]) -> Option<usize>
    ensures { result ≡ meant.broken claims.now (map S.state remotes.now) }
{
    claims.iter().position(|claim| !holds(*claim, remotes))
}

/// The number of the first claim, counted from 0, that doesn't hold of remotes that stand in these
/// states. `None` where all hold. Bit s of a set stands for the state at place s, so a state from
/// 64 on is in no set. Takes no memory. For each claim up to that one the remotes are passed over
/// at most twice.
pub fn broken_among<S: InState>(claims: &[NumberedClaim], remotes: &[S]) -> Option<u32>
    requires { length claims.now ≤ 2 ^ 32 }
    ensures { result ≡ meant.broken claims.now (map S.state remotes.now) }
{
    let number = first_broken(claims, remotes)?;
    Some(number as u32)
}

/// The number of the first claim, counted from 0, that doesn't hold in the configuration: that of
/// `broken_among` for its remotes. `None` where all hold. Takes no memory.
pub fn broken(claims: &[NumberedClaim], config: &RvConfig) -> Option<u32>
    requires { length claims.now ≤ 2 ^ 32 }
    ensures { result ≡ meant.broken claims.now (remote_states config.now) }
{
    broken_among(claims, config.remotes.as_slice())
}
