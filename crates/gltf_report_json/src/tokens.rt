//! What takes the tokens of a JSON text, and the members that a report is made of.
ghost use Rattle.std.specs.Prelude.{◌≡◌, ℕ, List, [], ◌∷◌, ◌++◌, OnOk};
ghost use Rattle.json.specs.Token.{Token as SpecToken};
ghost use Rattle.json.specs.Reads.{token_of};
ghost use Rattle.json.specs.Print.{IsPrintable};
ghost use Rattle.gltf_report_json.specs.Reported.{text_member, number_member, flag_member};

use json::{Pretty, Token, Writer};
use std::alloc::AllocError;

/// What takes the tokens of a JSON text one by one. Contracts see those taken so far, and the bytes
/// that were there before.
pub(crate) trait TakesTokens {
    ghost taken: { Self → List SpecToken };

    ghost before: { Self → List ℕ };

    /// Takes one more token. Fails where there is no memory.
    fn take(&mut self, token: Token<'_>) -> Result<(), AllocError>
        requires { IsPrintable (token_of token) }
        ensures taken { OnOk result (taken self.new ≡ taken self.old ++ token_of token.entry ∷ []) }
        ensures before { before self.new ≡ before self.old };
}

/// On one line.
impl TakesTokens for Writer {
    ghost taken = { λ w. w.tokens };

    ghost before = { λ w. w.before };

    fn take(&mut self, token: Token<'_>) -> Result<(), AllocError> {
        self.token(token)
    }
}

/// On several lines.
impl TakesTokens for Pretty {
    ghost taken = { λ w. w };

    ghost before = { λ _. [] };

    fn take(&mut self, token: Token<'_>) -> Result<(), AllocError> {
        self.token(token)
    }
}

/// A member whose value is a text.
pub(crate) fn take_text<W: TakesTokens>(
    name: &str,
    text: &str,
    out: &mut W,
) -> Result<(), AllocError>
    ensures taken { OnOk result
        (W.taken out.new ≡ W.taken out.old ++ text_member name.now text.now) }
    ensures before { W.before out.new ≡ W.before out.old }
{
    out.take(Token::Key(name))?;
    out.take(Token::String(text))
}

/// A member whose value is a whole number.
pub(crate) fn take_number<W: TakesTokens>(
    name: &str,
    number: u64,
    out: &mut W,
) -> Result<(), AllocError>
    ensures taken { OnOk result
        (W.taken out.new ≡ W.taken out.old ++ number_member name.now number) }
    ensures before { W.before out.new ≡ W.before out.old }
{
    let mut digits = itoa::Buffer::new();
    out.take(Token::Key(name))?;
    out.take(Token::Number(digits.format(number)))
}

/// A member that is true or false.
pub(crate) fn take_flag<W: TakesTokens>(
    name: &str,
    flag: bool,
    out: &mut W,
) -> Result<(), AllocError>
    ensures taken { OnOk result (W.taken out.new ≡ W.taken out.old ++ flag_member name.now flag) }
    ensures before { W.before out.new ≡ W.before out.old }
{
    out.take(Token::Key(name))?;
    out.take(Token::Bool(flag))
}
