//! A law of the lines, on a function that does nothing but carry it.
ghost use Rattle.std.specs.Prelude.{◌≡◌};
ghost use Rattle.tl_types.specs.Response.{Response};
ghost use Rattle.tl_script.specs.Trace.{reply_text};
ghost use Rattle.check_cells.specs.Pattern.{seen_as};
ghost use Rattle.check_lines.specs.Reply.{pattern_text};

/// A reply that is wholly known is spelled as in the traces of tlx.
pub fn a_known_reply_is_spelled_as_in_a_trace()
    ensures { (reply : Response) → pattern_text (seen_as reply) ≡ reply_text reply }
{}
