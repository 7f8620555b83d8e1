//! Where a replay stops, as laws. These functions do nothing: their contracts are the laws.

ghost use Rattle.std.specs.Prelude.{◌≡◌, ◌++◌, ℕ, List};
ghost use Rattle.schedule_replay.specs.Played.{Stop, played, trace, last_text};
ghost use Rattle.schedule_replay.specs.PlayedItems.{blocks_of};
ghost use Rattle.schedule_replay.specs.TextLines.{lines_of};
ghost use Rattle.schedule_replay.specs.declared.limits.Limits.{Limits as TheLimits};
ghost use Rattle.run_replay.specs.RunTrace.{Running, run_play};
ghost use Rattle.run_replay.specs.WhereStopped.{IsFirstStop, MeansStop, played_behind};
ghost use Rattle.run_replay.specs.WhereStopped.{steps_in, state_behind};

/// A replay stops at the least number of lines behind which something stops it: a broken claim, the
/// end of the schedule, a line that is one too many, or a line that is refused. It has played the
/// steps that these lines say: they lead to where it ends, and its trace is their blocks and the
/// last text. Nothing here speaks of the player, line by line: what it does, whatever the bytes of
/// the schedule, is this plain form, and no other.
pub fn a_replay_stops_at_the_first_stop()
    ensures there { (limits : TheLimits) (start : Running) (text : List ℕ) → (n : ℕ)
        × IsFirstStop run_play limits start (lines_of text) n
        (played run_play limits start text).stop }
    ensures played { (limits : TheLimits) (start : Running) (text : List ℕ) (n : ℕ) (stop : Stop)
        → IsFirstStop run_play limits start (lines_of text) n stop
        → played run_play limits start text ≡ played_behind run_play start (lines_of text) n stop }
    ensures traced { (limits : TheLimits) (start : Running) (text : List ℕ) (n : ℕ) (stop : Stop)
        → IsFirstStop run_play limits start (lines_of text) n stop
        → trace run_play limits start text
        ≡ blocks_of run_play 0 start (steps_in (lines_of text) n)
        ++ last_text run_play (state_behind run_play start (lines_of text) n) stop }
{}

/// What it means where a replay stops. Played to the end: each line is taken, and no claim is
/// broken before the first line or behind any. At a line: it is the first that is refused. At too
/// many lines: there are more than a schedule may have, and so many are taken. By a claim, behind
/// so many lines: the configuration to which the steps of these lines lead breaks it, each claim
/// before it in the list holds there, and behind fewer lines every claim holds.
pub fn a_stop_means_what_it_says()
    ensures { (limits : TheLimits) (start : Running) (text : List ℕ)
        → MeansStop limits start (lines_of text) (played run_play limits start text).stop }
{}
