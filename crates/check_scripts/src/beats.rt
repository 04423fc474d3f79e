//! On a bus of 8 bytes the links of any width are those of `tl_beats`, the codec of tlx.
ghost use Rattle.check_scripts.specs.Beats.{AskSpelledAlike, BusIsThatOfEight, MaskIsThatOfEight, ReplySpelledAlike};

/// Where bytes stand, how many beats there are, and which masks are lawful.
pub fn bus_is_that_of_eight()
    ensures bus { BusIsThatOfEight }
    ensures mask { MaskIsThatOfEight }
{}

/// Beats spell the same requests and the same replies. Of a beat of `tl_beats` all lanes are known.
pub fn messages_are_the_same()
    ensures requests { AskSpelledAlike }
    ensures replies { ReplySpelledAlike }
{}
