ghost use Rattle.std.specs.Prelude.{◌≡◌, ◌≢◌, false, true, Err, IfOk, option_map};
ghost use Rattle.json.specs.Reads.{token_of};
ghost use Rattle.json.specs.Token as spec;
ghost use Rattle.serde_json.specs.Read.{number_of, number_from};
ghost use Rattle.cdf_node.specs.Next.{IsAlone, BeginsNoValue, IsScalar};
ghost use Rattle.cdf_node.specs.View.{number_view, view};
ghost use Rattle.cdf_node.specs.Whole.{IsNoted};

use crate::no_value::NoValue;
use crate::node::Node;
use crate::track::Track;
use fast_float::Numeral;
use json::Token;
use serde_json::Number;

// The number that a numeral with no sign writes, unless it is too large.
fn positive(numeral: &Numeral<'_>) -> Option<Number>
    ensures { option_map number_view result ≡ number_from false numeral.now }
{
    match numeral.to_u64() {
        Some(whole) => Some(Number::from(whole)),
        None => Number::from_f64(numeral.to_float(false)),
    }
}

// The number that a numeral behind a minus writes, unless it is too large; `-0` is a float.
fn negative(numeral: &Numeral<'_>) -> Option<Number>
    ensures { option_map number_view result ≡ number_from true numeral.now }
{
    match numeral.to_i64(true) {
        Some(whole) if whole < 0 => Some(Number::from(whole)),
        _ => Number::from_f64(numeral.to_float(true)),
    }
}

// The number that a text writes, unless it is too large.
#[tactic(auto, using(crate::proofs::Numbers::number_of_minus, crate::proofs::Numbers::number_of_plain))]
fn number(text: &str) -> Option<Number>
    ensures { option_map number_view result ≡ number_of text.now }
{
    let bytes = text.as_bytes();
    match bytes.split_first() {
        Some((b'-', behind)) => negative(&Numeral::scan(behind)),
        _ => positive(&Numeral::scan(bytes)),
    }
}

// The value that a number's text is by itself. Whether it isn't whole is noted. A call of its own:
// where code looks into a value as a number, every value is copied in odd pieces, which is slow.
#[inline(never)]
#[tactic(auto, using(json::proofs::Grammar::value_is, crate::specs::declared::node::Node::the_lemmas))]
fn read_number<'t>(text: &str, track: &mut Track) -> Result<Node<'t>, NoValue>
    ensures value { IfOk result (λ v. IsAlone (spec.Token.number text.now) (view v)) }
    ensures scalar { IfOk result (λ v. IsScalar (view v)) }
    ensures whole { IfOk result (λ v. IsNoted track.old.fraction track.new.fraction (view v)) }
    ensures unread { result ≡ Err NoValue.Unread
        → BeginsNoValue (spec.Token.number text.now) }
{
    let Some(number) = number(text) else {
        return Err(NoValue::Unread);
    };
    if number.is_f64() {
        track.fraction = true;
    }
    Ok(Node::Number(number))
}

/// The value that a token is by itself, as serde_json reads it. Where it is a number that isn't
/// whole, that is noted in `track`. Takes no memory.
///
/// # Errors
/// `Unread` where it is none.
#[inline(always)]
#[tactic(auto, using(json::proofs::Grammar::value_is, crate::specs::declared::node::Node::the_lemmas))]
pub fn scalar<'t>(token: Token<'t>, track: &mut Track) -> Result<Node<'t>, NoValue>
    requires no_array { token ≢ Token.BeginArray }
    requires no_object { token ≢ Token.BeginObject }
    ensures value { IfOk result (λ v. IsAlone (token_of token.entry) (view v)) }
    ensures scalar { IfOk result (λ v. IsScalar (view v)) }
    ensures whole { IfOk result (λ v. IsNoted track.old.fraction track.new.fraction (view v)) }
    ensures unread { result ≡ Err NoValue.Unread → BeginsNoValue (token_of token.entry) }
{
    match token {
        Token::Null => Ok(Node::Null),
        Token::Bool(truth) => Ok(Node::Bool(truth)),
        Token::String(text) => Ok(Node::String(text)),
        Token::Number(text) => read_number(text, track),
        _ => Err(NoValue::Unread),
    }
}
