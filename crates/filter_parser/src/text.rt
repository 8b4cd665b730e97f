//! From a text to its filter.
//!
//! **The name before a missing `=` is added to the fault where a text is refused as a whole**, by a look at its tokens. What reads a command knows
//! only what is left of them, and a text that is not refused pays nothing.

ghost use Rattle.std.specs.Prelude.{◌≡◌, ◌≢◌, ◌<◌, ◌≤◌, List, None, IfOk, IfErr, IfSome, IsErrOf, length};
ghost use Rattle.filter_tokens.specs.Codes.{fault_place};
ghost use Rattle.filter_tokens.specs.Tokenization.{AreInOrder, IsTokenization, StopsAt};
ghost use Rattle.filter_tokens.specs.declared.token.Token.{Token as TheToken};
ghost use Rattle.expression_parser.specs.Codes.{LiesWithin, fault_place as parse_place};
ghost use Rattle.filter_parser.specs.Heads.{HasHead};
ghost use Rattle.filter_syntax.specs.Placed.{IsPlaced};
ghost use Rattle.filter_syntax.specs.Surroundings.{nothing};
ghost use Rattle.filter_parser.specs.Telling.{StandsRound, TellsRound};
ghost use Rattle.filter_syntax.specs.Syntax.{text_limit};
ghost use Rattle.filter_syntax.specs.SyntaxText.{IsText, FilterView, view_filter};
ghost use Rattle.expression_parser.specs.declared.fault.ParseFault.TheVariants.{Memory, TooLong};

use crate::filter::parse_filter;
use crate::head::with_head;
use crate::unparsed::Unparsed;
use expression_parser::{Input, LexedText, ParseFault, TEXT_LIMIT};
use filter_syntax::Filter;
use filter_tokens::{Lexed, Token, TokenFault, lex};
use std::alloc::Global;

/// The filter that a text's tokens are read as. A fault may have ended them.
fn filter_of_tokens(
    alloc: Global,
    text: &[u8],
    tokens: Vec<Token>,
    fault: Option<TokenFault>,
) -> Result<Filter, Unparsed>
    requires size { length text.now ≤ text_limit }
    requires spans { AreInOrder 0 tokens.items (length text.now) }
    requires cut { fault ≡ None → IsTokenization tokens.items 0 text.now }
    requires stops { IfSome fault (λ why. StopsAt tokens.items (fault_place why) text.now) }
    requires only { (all : List TheToken) → IsTokenization all 0 text.now → (fault ≡ None) × (tokens.items ≡ all) }
    ensures found { IfOk result (λ f. IsText text.now (view_filter f)) }
    ensures unique { IfOk result (λ f. (t : FilterView) → IsText text.now t → t ≡ view_filter f) }
    ensures refused { IfErr result (λ e. e.fault ≢ Memory → (t : FilterView) → IsText text.now t → ⊥) }
    ensures spans { IfOk result (λ f. AreInOrder 0 (view_filter f).tokens (length text.now)) }
    ensures placed { IfOk result (λ f. IsPlaced text.now f) }
    ensures within { IfErr result (λ e. LiesWithin (length text.now) e.fault) }
    ensures head { IfErr result (λ e. HasHead text.now e.fault) }
    ensures around { IfErr result (λ e. StandsRound text.now (parse_place e.fault) e.around) }
{
    let source = LexedText { text, end: fault };
    let read = parse_filter(
        alloc,
        Input {
            source: &source,
            tokens: tokens.as_slice(),
        },
    );
    match read {
        Ok(parts) => match fault {
            None => Ok(Filter::new(parts.name, parts.decls, parts.body, tokens)),
            Some(fault) => Err(Unparsed::at(tokens.as_slice(), ParseFault::Token(fault))),
        },
        Err(fault) => {
            let fault = with_head(tokens.as_slice(), fault);
            Err(Unparsed::at(tokens.as_slice(), fault))
        }
    }
}

/// The filter that a text spells, or its first fault and what stands round the place: what [`parse`] answers, with more to tell people.
pub fn parse_explained(alloc: Global, text: &[u8]) -> Result<Filter, Unparsed>
    // The text spells the filter that is answered.
    ensures found { IfOk result (λ f. IsText text.now (view_filter f)) }
    // It spells no other.
    ensures unique { IfOk result (λ f. (t : FilterView) → IsText text.now t → t ≡ view_filter f) }
    // No text spells two filters.
    ensures one { (t u : FilterView) → IsText text.now t → IsText text.now u → t ≡ u }
    // A text that is refused spells no filter, unless memory ran out.
    ensures refused { IfErr result (λ e. e.fault ≢ Memory → (t : FilterView) → IsText text.now t → ⊥) }
    // The tokens are in the order of the text.
    ensures spans { IfOk result (λ f. AreInOrder 0 (view_filter f).tokens (length text.now)) }
    // Each part of the tree has the place of its own token.
    ensures placed { IfOk result (λ f. IsPlaced text.now f) }
    // A fault is at a byte of the text, or at its end.
    ensures within { IfErr result (λ e. LiesWithin (length text.now) e.fault) }
    // Where the `=` of an assignment is missing, the fault has the name before it, if there is one.
    ensures head { IfErr result (λ e. HasHead text.now e.fault) }
    // What stands round the place of a fault is told with it.
    ensures around { IfErr result (λ e. TellsRound text.now e.fault e.around) }
    // P7 is the answer if and only if the text is over the limit.
    ensures long { text_limit < length text.now → IsErrOf result (record { fault = TooLong; around = nothing }) }
    ensures short { length text.now ≤ text_limit → IfErr result (λ e. e.fault ≢ TooLong) }
{
    if text.len() > TEXT_LIMIT {
        return Err(Unparsed::uncut(ParseFault::TooLong));
    }
    let Lexed { tokens, fault } = lex(alloc, text)?;
    filter_of_tokens(alloc, text, tokens, fault)
}

/// The filter that a text spells.
///
/// A text that spells none is refused with its first fault. Each token has the place of its first byte and the place after
/// its last one, and the tokens are in order.
pub fn parse(alloc: Global, text: &[u8]) -> Result<Filter, ParseFault>
    // The text spells the filter that is answered.
    ensures found { IfOk result (λ f. IsText text.now (view_filter f)) }
    // It spells no other.
    ensures unique { IfOk result (λ f. (t : FilterView) → IsText text.now t → t ≡ view_filter f) }
    // A text that is refused spells no filter, unless memory ran out.
    ensures refused { IfErr result (λ e. e ≢ Memory → (t : FilterView) → IsText text.now t → ⊥) }
    // The tokens are in the order of the text.
    ensures spans { IfOk result (λ f. AreInOrder 0 (view_filter f).tokens (length text.now)) }
    // Each part of the tree has the place of its own token.
    ensures placed { IfOk result (λ f. IsPlaced text.now f) }
    // A fault is at a byte of the text, or at its end.
    ensures within { IfErr result (λ e. LiesWithin (length text.now) e) }
    // P7 is the answer if and only if the text is over the limit.
    ensures long { text_limit < length text.now → IsErrOf result TooLong }
    ensures short { length text.now ≤ text_limit → IfErr result (λ e. e ≢ TooLong) }
{
    match parse_explained(alloc, text) {
        Ok(filter) => Ok(filter),
        Err(unparsed) => Err(unparsed.fault),
    }
}
