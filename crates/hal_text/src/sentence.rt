//! What each rule says is broken, in a sentence.
ghost use Rattle.std.specs.Prelude.{◌≡◌};
ghost use Rattle.hal_text.specs.Sentences.{sentence_of};

use hal_model::Rule;

/// The sentences of the rules, in the order of these.
const SENTENCES: [&str; 51] = [
    "something is called before initialize has returned ok",
    "initialize is called a second time",
    "a request before any stream is configured",
    "a request without a buffer, or a configuration without an output stream",
    "the first request since the configuration has no settings",
    "a configuration with more than one input",
    "streams are configured while the device has requests that no flush took",
    "a request or a configure while another is in call; a close while anything is",
    "a call after close",
    "a frame number that isn't above those before",
    "a request with a buffer that the device still has, or twice with the same",
    "two buffers of one stream in a request (strict)",
    "more buffers of a stream at the device than it said it takes",
    "a buffer for a stream that isn't configured",
    "the device did what it was asked for before initialize",
    "it accepted a second initialize",
    "it did what it was asked for after it had told of a fatal failure",
    "it accepted a request without a buffer, or a configuration without an output",
    "it accepted a configuration with two inputs",
    "it accepted a first request without settings",
    "it accepted a buffer for a stream that isn't configured",
    "it configured a stream and left its max_buffers 0",
    "it refused a request in which nothing is wrong",
    "it refused a request of which it had told something",
    "it tells something of a request that it never had, or that is done",
    "it calls back after close has returned",
    "it calls back after it told of a fatal failure",
    "it tells of a fatal failure while it still has requests",
    "a second shutter of a frame",
    "a shutter of a frame that failed whole",
    "a result with nothing in it",
    "a partial result with a number that isn't from 1 to the device's count; buffers alone with another one than 0",
    "a second partial result with the same number",
    "metadata of a frame that failed whole",
    "the last metadata of a frame after that of a later one",
    "a buffer comes back that the request didn't bring, or a second time",
    "a buffer's status is neither ok nor error",
    "an ok buffer comes back after one of the same stream of a later request",
    "a failed buffer comes back after one of the same stream of a later request, outside a flush (strict)",
    "an ok buffer after the error of it or of its request",
    "a buffer comes back with an acquire fence",
    "a failed buffer comes back with another release fence than its acquire fence",
    "the same error of a frame twice",
    "an error of a part of a frame that failed whole",
    "a frame fails whole after something good of it came, or another error",
    "an error of a buffer that came back ok",
    "an error of a buffer that the request doesn't have",
    "a flush returns, and a request that it had to bring back is still out",
    "a close returns, and a request is still out",
    "a buffer came back in error, and no error was told of it, until a flush or close returned",
    "a whole frame without a shutter, until a flush or close returned",
];

/// Where the rule is broken, in a sentence.
pub fn sentence_of(rule: Rule) -> &'static str
    ensures { result.now ≡ sentence_of rule }
{
    SENTENCES[rule as usize]
}
