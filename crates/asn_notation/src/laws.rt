//! Laws of the definitions.

ghost use Rattle.std.specs.Prelude.{◌≡◌, ◌++◌, ℕ, List, [], true};
ghost use Rattle.std.specs.List.{AllByRecursion};
ghost use Rattle.asn_notation.specs.Token.{Token};
ghost use Rattle.asn_notation.specs.Tree.{ModuleTree};
ghost use Rattle.asn_notation.specs.Lexing.{lexed, is_white};
ghost use Rattle.asn_notation.specs.Printed.{ArePrintable, IsRead, spaced, line};
ghost use Rattle.asn_notation.specs.ModuleText.{IsModuleText};

/// Tokens that are printed, with a white space after each, are read again.
pub fn tokens_are_read_again()
    ensures { (c : ℕ) (ts : List Token) → is_white c ≡ true → ArePrintable ts → lexed (spaced c ts) ≡ ts }
{}

/// Tokens that are printed as a line are read again, and then what follows the line.
pub fn lines_are_read_again()
    ensures { (ts : List Token) (rest : List ℕ) → ArePrintable ts → lexed (line ts ++ rest) ≡ ts ++ lexed rest }
{}

/// The identifiers and names of a text are whole words, which can be printed.
pub fn words_are_whole()
    ensures { (text : List ℕ) → AllByRecursion IsRead (lexed text) }
{}

/// A text is one module at most, with types of at most `n` levels.
pub fn one_module()
    ensures { (n : ℕ) (text : List ℕ) (a b : ModuleTree) → IsModuleText n text a → IsModuleText n text b → a ≡ b }
{}
