//! When the beats of the messages of a source crossed.
ghost use Rattle.std.specs.Prelude.{◌≡◌};
ghost use Rattle.check_coverage.specs.Flights.{ends_a_reply, ends_an_ask};
ghost use Rattle.check_coverage.specs.Times.{no_times, times_after, times_asked, times_replied};

use check_sides::{Beat, Ended};

/// When the first beat of the latest request of a source crossed; when the latest beat of that request did, if more of it is to
/// come; the same of its reply, if that has begun; and when the last reply ended, if one did.
#[derive(Clone, Copy)]
pub struct Times {
    pub began: u64,
    pub asked: Option<u64>,
    pub replied: Option<u64>,
    pub answered: Option<u64>,
}

/// Whether it is a request.
pub fn ends_an_ask(end: Ended) -> bool
    ensures { result ≡ ends_an_ask end }
{
    match end {
        Ended::Ask => true,
        Ended::Part | Ended::Reply => false,
    }
}

/// Whether it is a reply.
pub fn ends_a_reply(end: Ended) -> bool
    ensures { result ≡ ends_a_reply end }
{
    match end {
        Ended::Reply => true,
        Ended::Part | Ended::Ask => false,
    }
}

impl Times {
    /// Before any beat.
    pub fn new() -> Times
        ensures { result ≡ no_times }
    {
        Times {
            began: 0,
            asked: None,
            replied: None,
            answered: None,
        }
    }

    /// After one beat more of a request, which ends it or not.
    fn asked(self, time: u64, is_whole: bool) -> Times
        ensures { result ≡ times_asked time is_whole self }
    {
        Times {
            began: if self.asked.is_some() {
                self.began
            } else {
                time
            },
            asked: if is_whole { None } else { Some(time) },
            replied: self.replied,
            answered: self.answered,
        }
    }

    /// After one beat more of a reply, which ends it or not.
    fn replied(self, time: u64, is_whole: bool) -> Times
        ensures { result ≡ times_replied time is_whole self }
    {
        Times {
            began: self.began,
            asked: self.asked,
            replied: if is_whole { None } else { Some(time) },
            answered: if is_whole { Some(time) } else { self.answered },
        }
    }

    /// After one beat more, which ends this.
    pub fn after(self, time: u64, beat: &Beat, end: Ended) -> Times
        ensures { result ≡ times_after time beat.now end self }
    {
        match beat {
            Beat::A(_) => self.asked(time, ends_an_ask(end)),
            Beat::D(_) => self.replied(time, ends_a_reply(end)),
        }
    }
}
