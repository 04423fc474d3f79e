//! Laws about beats that fit one after the other, each on a function that does nothing but carry it.
ghost use Rattle.check_beats.specs.Laws.{ChannelIsCutUp, AskIsSpelled, AskCanEnd};
ghost use Rattle.check_beats.specs.Laws.{ReplyChannelIsCutUp, ReplyIsSpelled, ReplyCanEnd};
ghost use Rattle.check_beats.specs.Laws.{AsksAreOnBus, RepliesAreOnBus, KnownLanesAreKnownBytes};

/// On every bus the beats of channel A are those of requests, one after the other, and those of the request that is
/// under way; each request that has ended is lawful, and spelled by its beats, and the one that is under way can end.
pub fn beats_are_requests()
    ensures cut { ChannelIsCutUp }
    ensures spelled { AskIsSpelled }
    ensures end { AskCanEnd }
{}

/// The same of channel D and replies, whatever the addresses of the requests.
pub fn beats_are_replies()
    ensures cut { ReplyChannelIsCutUp }
    ensures spelled { ReplyIsSpelled }
    ensures end { ReplyCanEnd }
{}

/// Lanes past the bus and known bits there mean nothing, and a lawful mask has no bit there.
pub fn nothing_is_past_the_bus()
    ensures asks { AsksAreOnBus }
    ensures replies { RepliesAreOnBus }
{}

/// The bytes that a beat of a reply carries are all known exactly if the lanes that carry them are.
pub fn known_lanes_are_known_bytes()
    ensures { KnownLanesAreKnownBytes }
{}
