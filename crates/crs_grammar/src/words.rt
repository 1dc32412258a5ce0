//! The words and marks of a line of models.
ghost use Rattle.std.specs.Prelude.{◌≡◌, ◌≤◌, length, IfOk, option_map};
ghost use Rattle.crs_base.specs.SeenTokens as places;
ghost use Rattle.crs_base.specs.Tokens.{tokens_of, is_model_mark};
ghost use Rattle.crs_grammar.specs.GrammarTokens.{seen, token_of};

use crs_base as base;
use crs_base::{Marks, read_tokens, word_bytes};
use std::alloc::{AllocError, Global};

/// A word or a mark of a line. The mark `!=` is `Mark(b'!')`.
#[derive(Clone, Copy)]
pub enum Token<'a> {
    Word(&'a [u8]),
    Mark(u8),
}

fn token_at<'a>(line: &'a [u8], place: base::Token) -> Token<'a>
    ensures { token_of result ≡ places.token_of line.now place }
{
    match place {
        base::Token::Word { start, len } => Token::Word(word_bytes(line, start, len)),
        base::Token::Mark(m) => Token::Mark(m),
    }
}

fn sliced<'a>(
    alloc: Global,
    line: &'a [u8],
    found: &[base::Token],
) -> Result<Vec<Token<'a>>, AllocError>
    ensures { IfOk result (λ v. seen v.items ≡ places.tokens_seen line.now found.now) }
{
    let mut out = Vec::new(alloc);
    for p in found {
        out.push(token_at(line, *p))?;
    }
    Ok(out)
}

/// The words and marks of a line of models, or `None` where some byte is of neither.
pub fn tokens<'a>(alloc: Global, line: &'a [u8]) -> Result<Option<Vec<Token<'a>>>, AllocError>
    requires { length line.now ≤ 4096 }
    ensures { IfOk result (λ o. option_map (λ v. seen v.items) o ≡ tokens_of is_model_mark line.now) }
{
    match read_tokens(alloc, line, Marks::Model)? {
        Some(places) => Ok(Some(sliced(alloc, line, &places)?)),
        None => Ok(None),
    }
}
