//! The condition that fails, in words.
ghost use Rattle.std.specs.Prelude.{◌≡◌, ◌++◌, OnOk};
ghost use Rattle.explain_call.specs.Explained.{heading_text, reason_text, section_text, sentence_text};

use cam_types::NoMemory;
use rule_conditions::{Condition, heading_of, section_of, sentence_of};
use trace_model::RuleName;

/// Writes the sentence of a condition.
#[tactic(auto, unfolding(crate::specs::Explained::sentence_text))]
fn put_sentence(text: &mut Vec<u8>, condition: Condition) -> Result<(), NoMemory>
    ensures { OnOk result (text.new.items ≡ text.old.items ++ sentence_text condition) }
{
    text.extend_from_slice(sentence_of(condition).as_bytes())?;
    text.extend_from_slice(b".\n")
}

/// Writes three texts, one behind the other.
fn put_three(text: &mut Vec<u8>, front: &[u8], middle: &[u8], back: &[u8]) -> Result<(), NoMemory>
    ensures { OnOk result (text.new.items ≡ text.old.items ++ (front.now ++ (middle.now ++ back.now))) }
{
    text.extend_from_slice(front)?;
    text.extend_from_slice(middle)?;
    text.extend_from_slice(back)
}

/// Writes where the conditions of the rule stand in docs/CONTRACT.md.
#[tactic(auto, unfolding(crate::specs::Explained::heading_text))]
fn put_heading(text: &mut Vec<u8>, rule: RuleName) -> Result<(), NoMemory>
    ensures { OnOk result (text.new.items ≡ text.old.items ++ heading_text rule) }
{
    put_three(
        text,
        b"(docs/CONTRACT.md, ",
        heading_of(rule).as_bytes(),
        b"; ",
    )
}

/// Writes which section of camera3.h asks for a condition.
#[tactic(auto, unfolding(crate::specs::Explained::section_text))]
fn put_section(text: &mut Vec<u8>, condition: Condition) -> Result<(), NoMemory>
    ensures { OnOk result (text.new.items ≡ text.old.items ++ section_text condition) }
{
    text.extend_from_slice(section_of(condition).as_bytes())?;
    text.extend_from_slice(b")\n")
}

/// Writes the sentence of a condition of the rule, and where it stands.
#[tactic(auto, unfolding(crate::specs::Explained::reason_text))]
pub fn put_reason(text: &mut Vec<u8>, rule: RuleName, condition: Condition) -> Result<(), NoMemory>
    ensures { OnOk result (text.new.items ≡ text.old.items ++ reason_text rule condition) }
{
    put_sentence(text, condition)?;
    put_heading(text, rule)?;
    put_section(text, condition)
}
