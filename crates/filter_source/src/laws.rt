//! Laws on sources, each the contract of a function with an empty body.
ghost use Rattle.std.specs.Prelude.{◌≡◌, ℕ, List};
ghost use Rattle.filter_code.specs.CodeView.{CodeView};
ghost use Rattle.filter_syntax.specs.SyntaxText.{FilterView};
ghost use Rattle.filter_source.specs.Sources.{AreAlike, IsRefusedText, Translates};
ghost use Rattle.filter_source.specs.declared.refusal.Refusal.{Refusal as TheRefusal};

/// A text has one translation at most, and a text that has one is not refused. Of one that has none, two refusals are alike.
pub fn one_translation()
    ensures one { (text : List ℕ) (f g : FilterView) (p q : CodeView) → Translates text f p → Translates text g q → p ≡ q }
    ensures none { (text : List ℕ) (f : FilterView) (p : CodeView) (why : TheRefusal) → Translates text f p
        → IsRefusedText text why → ⊥ }
    ensures alike { (text : List ℕ) (why other : TheRefusal) → IsRefusedText text why → IsRefusedText text other → AreAlike why other }
{}
