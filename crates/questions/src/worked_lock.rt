//! Questions about a lock, worked out: what their lines say, and which are answered yes. The lock,
//! the questions and the configurations stand in `specs/WorkedLock`. There is nothing to run here.
#![tactic(auto, unfolding(rv_base::specs::Numbers::number_of))]

ghost use Rattle.std.specs.Prelude.{◌≡◌, true, false, codes};
ghost use Rattle.schedule_replay.specs.declared.player.Meaning.TheVariants as meaning;
ghost use Rattle.questions.specs.Answers.{is_answered};
ghost use Rattle.schedule_replay.specs.Played.{AtLine};
ghost use Rattle.schedule_replay.specs.ScheduleLimits.{schedule_limits};
ghost use Rattle.questions.specs.AllAsked.{Refused, question_line, asked_of};
ghost use Rattle.questions.specs.WorkedLock.{lock, holder_is_known, counts_agree, none_holds, used};

/// What lines say: nothing, a question of remotes, one of the home alone, or nothing that is right.
pub fn lines_about_a_lock()
    ensures blank { question_line lock (codes "// the holder is known") ≡ meaning.Blank }
    ensures known { question_line lock (codes "home Taken with Use Back : home.holder eq remote")
        ≡ meaning.Says holder_is_known }
    ensures agree { question_line lock (codes "home Taken with Use : remote.count eq home.count")
        ≡ meaning.Says counts_agree }
    ensures free { question_line lock (codes "home Free : home.holder eq none")
        ≡ meaning.Says none_holds }
    ensures bad { question_line lock (codes "with Use : remote in home.none2") ≡ meaning.Bad }
{}

/// Where the first remote has the lock and has counted on, its count isn't the home's.
pub fn answers_about_a_lock()
    ensures known { is_answered (used 1) holder_is_known ≡ true }
    ensures still { is_answered (used 0) counts_agree ≡ true }
    ensures broken { is_answered (used 1) counts_agree ≡ false }
    ensures elsewhere { is_answered (used 1) none_holds ≡ true }
{}

/// Of two lines the second names what isn't declared, and so the text is refused there.
pub fn second_line_is_refused()
    ensures { asked_of schedule_limits lock
        (codes "home Free : home.holder eq none\nwith Use : remote in home.none2\n")
        ≡ Refused (AtLine 2) }
{}
