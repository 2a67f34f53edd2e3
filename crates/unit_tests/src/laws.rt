//! A law on the templates: a function that does nothing, and whose contract says it.

ghost use Rattle.std.specs.Prelude.{◌≡◌};
ghost use Rattle.metadata.specs.declared.rule.Template.TheVariants.{Preview, Still};
ghost use Rattle.metadata.specs.Templates.{template_of};
ghost use Rattle.script_text.specs.Values.{preview, still};

/// The settings that `preview` and `still` stand for in the text of a script are those of the templates.
pub fn words_are_templates()
    ensures for_preview { template_of Preview ≡ preview }
    ensures for_still { template_of Still ≡ still }
{}
