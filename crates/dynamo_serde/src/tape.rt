// An attribute value laid out as a row of tokens, which serde's steps walk along.
ghost use Rattle.std.specs.Prelude.{◌≡◌, [], ◌∷◌, ◌++◌, List, map, string_bytes, false, IfOk, OnOk};
ghost use Rattle.std.specs.Prelude.{MatchOption};
ghost use Rattle.dynamo_value.specs.Av as av;
ghost use Rattle.dynamo_value.specs.View.{view, elements_view, members_view};
ghost use Rattle.dynamo_serde.specs.Laid.{Token as Laid, Takes, TakesText, IsLaid, laid};
ghost use Rattle.dynamo_serde.specs.Tape.{token_of, row, ahead, place};

use crate::fault::{LEVELS, fault, too_deep};
use dynamo_value::{AttributeValue, ErrorImpl, Result, entries_by_key};
use dynamo_write::SetKind;
use std::alloc::Global;
use std::collections::HashMap;

#[derive(Clone, Copy, Drop)]
pub(crate) enum Token<'v> {
    Null(bool),
    Bool(bool),
    Number(&'v str),
    Text(&'v str),
    Bytes(&'v [u8]),
    BeginList,
    BeginSet(SetKind),
    EndSeq,
    // A map, and whether it has just one key.
    BeginMap(bool),
    EndMap,
    Key(&'v str),
}

// What the step before says of a value that is then found to be none of its type's.
#[derive(Clone, Copy, Drop)]
pub(crate) enum Doubt {
    // Nothing.
    None,
    // It is this number, which the type's width doesn't hold.
    Width,
    // It is no unit.
    Unit,
    // A value was looked at, without being read.
    Looked,
    // Its kind was asked for, so that a number may be read as its string, and NULL as a boolean.
    Told,
    // It is the map of an enum, with no variant in it or with more than one.
    Variant,
    // It is the map of an enum, without its content.
    Content,
}

/// The part of an attribute value that isn't read yet. It is a `Format` of serde's.
#[derive(Drop)]
pub struct Tape<'v> {
    pub(crate) alloc: Global,
    tokens: Vec<Token<'v>>,
    at: usize,
    pub(crate) doubt: Doubt,
    // The last string that was to name a variant, if it names none.
    pub(crate) unmatched: Option<&'v str>,
}

/// A place on a tape.
#[derive(Clone, Copy, Drop)]
pub struct Mark {
    at: usize,
}

// Lays one token more.
fn lay_one<'v>(token: Token<'v>, tokens: &mut Vec<Token<'v>>) -> Result<()>
    ensures { OnOk result
        (row tokens.new.items ≡ row tokens.old.items ++ token_of token.entry ∷ []) }
{
    tokens.push(token)?;
    Ok(())
}

fn lay_texts<'v>(texts: &'v Vec<String>, tokens: &mut Vec<Token<'v>>) -> Result<()>
    ensures { OnOk result
        (row tokens.new.items
        ≡ row tokens.old.items ++ laid (av.Ss (map string_bytes texts.now.items))) }
{
    lay_one(Token::BeginSet(SetKind::Strings), tokens)?;
    for text in texts {
        lay_one(Token::Text(text.as_str()), tokens)?;
    }
    lay_one(Token::EndSeq, tokens)
}

fn lay_numbers<'v>(texts: &'v Vec<String>, tokens: &mut Vec<Token<'v>>) -> Result<()>
    ensures { OnOk result
        (row tokens.new.items
        ≡ row tokens.old.items ++ laid (av.Ns (map string_bytes texts.now.items))) }
{
    lay_one(Token::BeginSet(SetKind::Numbers), tokens)?;
    for text in texts {
        lay_one(Token::Number(text.as_str()), tokens)?;
    }
    lay_one(Token::EndSeq, tokens)
}

fn lay_blobs<'v>(blobs: &'v Vec<Vec<u8>>, tokens: &mut Vec<Token<'v>>) -> Result<()>
    ensures { OnOk result
        (row tokens.new.items
        ≡ row tokens.old.items ++ laid (av.Bs (map (λ b. b.items) blobs.now.items))) }
{
    lay_one(Token::BeginSet(SetKind::Blobs), tokens)?;
    for blob in blobs {
        lay_one(Token::Bytes(blob.as_slice()), tokens)?;
    }
    lay_one(Token::EndSeq, tokens)
}

// Lists and maps may still nest `levels` deep.
#[cycle(lay)]
fn lay<'v>(
    alloc: Global,
    value: &'v AttributeValue,
    levels: usize,
    tokens: &mut Vec<Token<'v>>,
) -> Result<()>
    ensures { OnOk result (row tokens.new.items ≡ row tokens.old.items ++ laid (view value.now)) }
{
    match value {
        AttributeValue::N(text) => lay_one(Token::Number(text.as_str()), tokens),
        AttributeValue::S(text) => lay_one(Token::Text(text.as_str()), tokens),
        AttributeValue::Bool(b) => lay_one(Token::Bool(*b), tokens),
        AttributeValue::B(bytes) => lay_one(Token::Bytes(bytes.as_slice()), tokens),
        AttributeValue::Null(b) => lay_one(Token::Null(*b), tokens),
        AttributeValue::M(map) => lay_map(alloc, map, levels, tokens),
        AttributeValue::L(items) => lay_list(alloc, items, levels, tokens),
        AttributeValue::Ss(texts) => lay_texts(texts, tokens),
        AttributeValue::Ns(texts) => lay_numbers(texts, tokens),
        AttributeValue::Bs(blobs) => lay_blobs(blobs, tokens),
    }
}

#[cycle(lay)]
fn lay_list<'v>(
    alloc: Global,
    items: &'v Vec<AttributeValue>,
    levels: usize,
    tokens: &mut Vec<Token<'v>>,
) -> Result<()>
    ensures { OnOk result
        (row tokens.new.items
        ≡ row tokens.old.items ++ laid (av.L (elements_view items.now.items))) }
{
    let Some(levels) = levels.checked_sub(1) else {
        return Err(too_deep(alloc));
    };
    lay_one(Token::BeginList, tokens)?;
    for item in items {
        lay(alloc, item, levels, tokens)?;
    }
    lay_one(Token::EndSeq, tokens)
}

// The entries come in ascending order of the bytes of their keys.
#[cycle(lay)]
fn lay_map<'v>(
    alloc: Global,
    map: &'v HashMap<String, AttributeValue>,
    levels: usize,
    tokens: &mut Vec<Token<'v>>,
) -> Result<()>
    ensures { OnOk result
        (row tokens.new.items
        ≡ row tokens.old.items ++ laid (av.M (members_view map.now.entries))) }
{
    let Some(levels) = levels.checked_sub(1) else {
        return Err(too_deep(alloc));
    };
    lay_one(Token::BeginMap(map.len() == 1), tokens)?;
    let entries = entries_by_key(alloc, map)?;
    for (key, value) in entries {
        lay_one(Token::Key(key.as_str()), tokens)?;
        lay(alloc, value, levels, tokens)?;
    }
    lay_one(Token::EndMap, tokens)
}

impl<'v> Tape<'v> {
    /// Returns the tape of an attribute value, at its start.
    ///
    /// # Errors
    ///
    /// Returns [`ErrorImpl::Message`] for more than 127 levels of lists and maps, and
    /// [`ErrorImpl::OutOfMemory`] if memory runs out.
    pub fn new(alloc: Global, value: &'v AttributeValue) -> Result<Tape<'v>>
        ensures { IfOk result (λ t. IsLaid (view value.now) (ahead t) × ((place t).told ≡ false)) }
    {
        let mut tokens = Vec::new(alloc);
        lay(alloc, value, LEVELS, &mut tokens)?;
        Ok(Tape {
            alloc,
            tokens,
            at: 0,
            doubt: Doubt::None,
            unmatched: None,
        })
    }

    /// Returns the tape of a map, at its start.
    ///
    /// # Errors
    ///
    /// Returns [`ErrorImpl::Message`] for more than 127 levels of lists and maps, and
    /// [`ErrorImpl::OutOfMemory`] if memory runs out.
    pub fn of_map(alloc: Global, map: &'v HashMap<String, AttributeValue>) -> Result<Tape<'v>>
        ensures { IfOk result
            (λ t. IsLaid (av.M (members_view map.now.entries)) (ahead t)
            × ((place t).told ≡ false)) }
    {
        let mut tokens = Vec::new(alloc);
        lay_map(alloc, map, LEVELS, &mut tokens)?;
        Ok(Tape {
            alloc,
            tokens,
            at: 0,
            doubt: Doubt::None,
            unmatched: None,
        })
    }

    // The token that comes.
    #[inline(always)]
    pub(crate) fn look(&self) -> Option<Token<'v>>
        ensures { MatchOption result (ahead self.now ≡ [])
            (λ t. (rest : List Laid) × (ahead self.now ≡ token_of t ∷ rest)) }
    {
        match self.tokens.get(self.at) {
            Some(token) => Some(*token),
            None => None,
        }
    }

    // How many tokens were passed over: the index of the one that comes.
    pub(crate) fn index(&self) -> usize {
        self.at
    }

    // All tokens, also those that were passed over.
    pub(crate) fn tokens(&self) -> &[Token<'v>] {
        self.tokens.as_slice()
    }

    // Whether the kind of the next value was asked for just before.
    pub(crate) fn is_told(&self) -> bool
        ensures { result ≡ (place self.now).told }
    {
        matches!(self.doubt, Doubt::Told)
    }

    // The token before.
    pub(crate) fn look_back(&self) -> Option<Token<'v>> {
        match self.tokens.get(self.at.checked_sub(1)?) {
            Some(token) => Some(*token),
            None => None,
        }
    }

    // Whether the key before is the first of a map of more keys.
    pub(crate) fn is_crowded(&self) -> bool {
        let Some(before) = self.at.checked_sub(2) else {
            return false;
        };
        match self.tokens.get(before) {
            Some(Token::BeginMap(is_single)) => !*is_single,
            _ => false,
        }
    }

    // Passes over the token that comes.
    #[inline(always)]
    pub(crate) fn pass(&mut self)
        ensures takes { (t : Laid) (rest : List Laid) → ahead self.old ≡ t ∷ rest
            → Takes (place self.old) t (place self.new) }
        ensures tokens { self.new.tokens ≡ self.old.tokens }
    {
        if self.at < self.tokens.len() {
            self.at += 1;
        }
        self.doubt = Doubt::None;
    }

    // Passes over the token that comes, and what it begins.
    pub(crate) fn pass_whole(&mut self)
        ensures { (passed : List Laid) × (ahead self.old ≡ passed ++ ahead self.new) }
    {
        let mut open: usize = 0;
        for _ in 0..u64::MAX {
            let Some(token) = self.look() else {
                break;
            };
            self.pass();
            open = match token {
                Token::BeginList | Token::BeginSet(_) | Token::BeginMap(_) => open.saturating_add(
                    1,
                ),
                Token::EndSeq | Token::EndMap => open.saturating_sub(1),
                _ => open,
            };
            if open == 0 {
                break;
            }
        }
    }

    // A string, of a value or of a key.
    #[inline(always)]
    pub(crate) fn text(&mut self, otherwise: ErrorImpl) -> Result<&'v str>
        ensures { IfOk result (λ s. TakesText (place self.old) s.now (place self.new)) }
    {
        match self.look() {
            Some(Token::Text(text) | Token::Key(text)) => {
                self.pass();
                Ok(text)
            }
            _ => Err(fault(otherwise)),
        }
    }

    pub(crate) fn place(&self) -> Mark {
        Mark { at: self.at }
    }

    pub(crate) fn go_to(&mut self, mark: Mark) {
        self.at = mark.at;
        self.doubt = Doubt::None;
    }
}
