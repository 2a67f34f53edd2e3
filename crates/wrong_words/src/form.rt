//! The forms and the limits of lines, by their first word.
ghost use Rattle.std.specs.Prelude.{◌≡◌, Some, bytes_eq, if◌then◌else◌};
ghost use Rattle.std.specs.Option.{option_map};
ghost use Rattle.wrong_words.specs.Sentences.{return_form, script_form, script_limits, trace_form};

/// The text where the first word is this one, else the other.
fn text_where(first: &[u8], word: &[u8], text: &'static str, other: &'static str) -> &'static str
    ensures { result.now ≡ (if bytes_eq first.now word.now then text.now else other.now) }
{
    if first == word { text } else { other }
}

/// The form where the first word is this one, else the other.
fn form_where(
    first: &[u8],
    word: &[u8],
    form: &'static str,
    other: Option<&'static str>,
) -> Option<&'static str>
    ensures { option_map (λ form. form.now) result ≡
        (if bytes_eq first.now word.now then Some form.now else option_map (λ form. form.now) other.entry) }
{
    if first == word { Some(form) } else { other }
}

/// The form of a script's lines with this first word, where it has one: other words stand alone.
#[tactic(auto, unfolding(crate::specs::Sentences::script_form))]
pub fn script_form(first: &[u8]) -> Option<&'static str>
    ensures { option_map (λ form. form.now) result ≡ script_form first.now }
{
    let fault = "fault request N | fault result N | fault buffer N S | fault device N";
    let form = form_where(first, b"await", "await K", None);
    let form = form_where(first, b"repeat", "repeat ITEM ..", form);
    let form = form_where(first, b"burst", "burst ITEM ..", form);
    let form = form_where(first, b"once", "once ITEM", form);
    let form = form_where(first, b"configure", "configure SPEC ..", form);
    let form = form_where(first, b"early", "early", form);
    let form = form_where(first, b"device", "device DEPTH RAW YUV", form);
    let form = form_where(first, b"pick", "pick P ..", form);
    form_where(first, b"fault", fault, form)
}

/// The limits that a script's line with this first word may pass.
#[tactic(auto, unfolding(crate::specs::Sentences::script_limits))]
pub fn script_limits(first: &[u8]) -> &'static str
    ensures { result.now ≡ script_limits first.now }
{
    let commands = "512 commands, with the close that is added";
    let awaits = "16384 for the sum of all await; 512 commands, with the close that is added";
    let once = "8 targets of an item; 512 commands, with the close that is added";
    let repeat =
        "8 items of a repeat, 8 targets of an item; 512 commands, with the close that is added";
    let burst =
        "32 items of a burst, 8 targets of an item; 512 commands, with the close that is added";
    let configure = "16 streams of a configure; 512 commands, with the close that is added";
    let limits = text_where(first, b"await", awaits, commands);
    let limits = text_where(first, b"once", once, limits);
    let limits = text_where(first, b"repeat", repeat, limits);
    let limits = text_where(first, b"burst", burst, limits);
    let limits = text_where(first, b"configure", configure, limits);
    let limits = text_where(first, b"device", "one device line", limits);
    let limits = text_where(first, b"pick", "8192 picks", limits);
    text_where(first, b"fault", "64 faults", limits)
}

/// The forms of a trace's lines of buffers, errors and fences.
#[tactic(auto, unfolding(crate::specs::Sentences::return_form))]
fn return_form(first: &[u8]) -> Option<&'static str>
    ensures { option_map (λ form. form.now) result ≡ return_form first.now }
{
    let error = "error request N | error result N | error buffer N S | error device";
    let buffer = "buffer N S bB ok - HEX | buffer N S bB error F";
    let form = form_where(first, b"signal", "signal fF", None);
    let form = form_where(first, b"release", "release bB fF", form);
    let form = form_where(first, b"error", error, form);
    let form = form_where(first, b"filled", "filled dK HEX", form);
    let form = form_where(first, b"early", "early N S bB dK", form);
    form_where(first, b"buffer", buffer, form)
}

/// The forms of a trace's lines with this first word; nothing where there are none.
#[tactic(auto, unfolding(crate::specs::Sentences::trace_form))]
pub fn trace_form(first: &[u8]) -> Option<&'static str>
    ensures { option_map (λ form. form.now) result ≡ trace_form first.now }
{
    let send = "send N rR.I new S:bB:F .. | send N rR.I same S:bB:F ..";
    let call =
        "call I W = ok | call I W = ok rR | call I configure = ok S:bB+C .. | call I W = refused CODE ..";
    let form = form_where(first, b"partial", "partial N K HEX", return_form(first));
    let form = form_where(first, b"shutter", "shutter N T", form);
    let form = form_where(first, b"drop", "drop N rR.I", form);
    let form = form_where(first, b"send", send, form);
    let form = form_where(first, b"call", call, form);
    let form = form_where(first, b"begin", "begin W", form);
    form_where(first, b"trace", "trace 1 | trace 2 DEPTH RAW YUV", form)
}
