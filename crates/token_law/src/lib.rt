//! Law `tokens_are_longest`: the tokens that `lex` answers are exactly the list in which, from left to right, each
//! token is the longest spelling of the table in front of what is left behind blanks, comments and hash lines.
#![tactic(auto)]

ghost use Rattle.token_law.specs.Longest.{TokensAreLongest, AnswersAreLongest};

/// From left to right, each token is the longest spelling in front of what is left behind blanks,
/// comments and hash lines; and each such list is the list of the tokens. So the lexer answers
/// such a list, refuses a source that has none, or lacks memory. It does nothing when it runs.
pub fn tokens_are_longest()
    ensures tokens { TokensAreLongest }
    ensures answers { AnswersAreLongest }
{}
