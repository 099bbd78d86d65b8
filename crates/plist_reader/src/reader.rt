ghost use Rattle.std.specs.Prelude.{◌≡◌, ◌+◌, ◌<◌, ◌^◌, [], ◌∷◌, ◌++◌, length, if◌then◌else◌, not};
ghost use Rattle.std.specs.Prelude.{nat_lt, IfOk, IfErr, Ok, Err};
ghost use Rattle.refusal_codes.specs.declared.errors.ReadError.TheVariants as read_errors;
ghost use Rattle.refusal_codes.specs.Gives.{Gives};
ghost use Rattle.plist_reader.specs.Refusals.{refusal};

use crate::characters::{byte_of, hex_value, is_space, is_word};
use crate::escape::{Escape, Escaped};
use crate::keys::Keys;
use crate::nodes::Nodes;
use crate::stack::Stack;
use crate::tree::{Tree, TreeValue};
use plain_lists::{Sequence, Text};
use refusal_codes::{Failure, ReadError, Rule, job};
use std::alloc::Global;
use std::mem;

/// How many brackets may be open at once.
pub(crate) const MAX_DEPTH: usize = 64;

/// What is awaited between two tokens.
#[derive(Clone, Copy)]
pub(crate) enum Phase {
    /// A value.
    Value,
    /// A value of a list, or the list's end.
    Item,
    /// A comma, or the list's end.
    ItemEnd,
    /// A key, or the dictionary's end.
    Key,
    /// The equals sign behind a key.
    KeyEnd,
    /// The semicolon behind a value of a dictionary.
    PairEnd,
    /// Nothing more: the value with this number is the whole.
    End(u32),
}

/// The token that is being read. Each has the place of its first byte.
#[derive(Clone, Copy)]
pub(crate) enum Token {
    /// None.
    Between,
    /// A bare word.
    Word(u32),
    /// A quoted string.
    Quoted(u32),
    /// An escape of a quoted string, with the place of its backslash.
    Escape(u32, u32, Escape),
    /// A byte string.
    Bytes(u32),
    /// A byte string, behind the first digit of a byte.
    Half(u32, char),
}

/// A dictionary that is being read.
#[derive(Drop)]
pub(crate) struct Dictionary {
    /// The place of its bracket.
    pub(crate) place: u32,
    /// Its keys so far.
    pub(crate) keys: Keys,
    /// Its whole pairs.
    pub(crate) pairs: Sequence<(u32, u32)>,
    /// The number of its last key.
    pub(crate) key: u32,
}

/// A bracket that is open.
#[derive(Drop)]
pub(crate) enum Open {
    /// That of a list: its place, and the values so far.
    Items(u32, Sequence<u32>),
    /// That of a dictionary.
    Pairs(Dictionary),
}

/// What is known of a property list between two of its characters.
#[derive(Drop)]
pub(crate) struct Reader {
    /// The values that have ended.
    pub(crate) nodes: Nodes,
    /// The brackets that are open.
    pub(crate) brackets: Stack<Open>,
    /// What is awaited between tokens.
    pub(crate) phase: Phase,
    /// The token that is being read.
    pub(crate) token: Token,
    /// Its text so far.
    pub(crate) text: Text,
    /// Its bytes so far.
    pub(crate) bytes: Sequence<u8>,
}

/// The refusal of a property list.
pub(crate) fn refusal(alloc: Global, rule: Rule, place: u32) -> ReadError
    ensures { result ≡ read_errors.Refused (refusal rule place) }
{
    let failure = Failure {
        rule,
        place: u64::from(place),
    };
    failure.refused(job::TREE, Text::new(alloc))
}

impl Reader {
    ghost use Rattle.plist_reader.specs.Reading.{start, Changes, with_node, value_ended, key_ended};
    ghost use Rattle.plist_reader.specs.Reading.{text_ended, unexpected_rule, unexpected};
    ghost use Rattle.plist_reader.specs.Reading.{text_begun};
    ghost use Rattle.plist_reader.specs.Reading.{bracket_opened, value_begun, list_closed};
    ghost use Rattle.plist_reader.specs.Reading.{dictionary_closed, between, in_word, in_quoted};
    ghost use Rattle.plist_reader.specs.Reading.{after_escape, in_bytes, in_half, step, whole};
    ghost use Rattle.plist_reader.specs.Reading.{finish};

    /// What is known before the first character.
    #[tactic(auto, unfolding(crate::specs::Reading::start))]
    pub(crate) fn new(alloc: Global) -> Self
        ensures { result ≡ start }
    {
        Reader {
            nodes: Nodes::new(alloc),
            brackets: Stack::new(alloc),
            phase: Phase::Value,
            token: Token::Between,
            text: Text::new(alloc),
            bytes: Sequence::new(alloc),
        }
    }

    /// Numbers a value that has ended.
    fn number(&mut self, place: u32, end: u32, value: TreeValue) -> Result<u32, ReadError>
        ensures ok { IfOk result (λ number. (number ≡ length self.old.nodes)
            × (self.new ≡ with_node self.old place end value)) }
        ensures err { IfErr result (λ e. e ≡ read_errors.NoMemory) }
    {
        let Ok(number) = u32::try_from(self.nodes.len()) else {
            return Err(ReadError::NoMemory);
        };
        self.nodes.push(place, end, &value)?;
        Ok(number)
    }

    /// Puts a value that has ended into what is open around it.
    #[tactic(auto, unfolding(crate::specs::Reading::value_ended))]
    fn value_ended(&mut self, place: u32, end: u32, value: TreeValue) -> Result<(), ReadError>
        ensures { Changes result self.new (Ok (value_ended self.old place end value)) }
    {
        let number = self.number(place, end, value)?;
        match self.brackets.pop() {
            None => self.phase = Phase::End(number),
            Some(Open::Items(at, mut items)) => {
                items.push(number)?;
                self.brackets.push(Open::Items(at, items))?;
                self.phase = Phase::ItemEnd;
            }
            Some(Open::Pairs(mut dictionary)) => {
                dictionary.pairs.push((dictionary.key, number))?;
                self.brackets.push(Open::Pairs(dictionary))?;
                self.phase = Phase::PairEnd;
            }
        }
        Ok(())
    }

    /// Puts a key into its dictionary, unless that has it already.
    #[tactic(auto, unfolding(crate::specs::Reading::key_ended))]
    fn key_ended(
        &mut self,
        alloc: Global,
        place: u32,
        end: u32,
        text: Text,
    ) -> Result<(), ReadError>
        ensures { Changes result self.new (key_ended self.old place end text) }
    {
        let Some(Open::Pairs(mut dictionary)) = self.brackets.pop() else {
            return Err(refusal(alloc, Rule::UnexpectedByte, place));
        };
        if !dictionary.keys.insert(text.copy(alloc)?)? {
            return Err(refusal(alloc, Rule::DuplicateKey, place));
        }
        dictionary.key = self.number(place, end, TreeValue::Text(text))?;
        self.brackets.push(Open::Pairs(dictionary))?;
        self.phase = Phase::KeyEnd;
        Ok(())
    }

    /// Ends a word or a quoted string.
    #[tactic(auto, unfolding(crate::specs::Reading::text_ended))]
    fn text_ended(&mut self, alloc: Global, place: u32, end: u32) -> Result<(), ReadError>
        ensures { Changes result self.new (text_ended self.old place end) }
    {
        let text = mem::replace(&mut self.text, Text::new(alloc));
        self.token = Token::Between;
        match self.phase {
            Phase::Key => self.key_ended(alloc, place, end, text),
            _ => self.value_ended(place, end, TreeValue::Text(text)),
        }
    }

    /// Why reading stops at a character.
    #[tactic(auto, unfolding(crate::specs::Reading::unexpected_rule))]
    fn unexpected_rule(&self, character: char) -> Rule
        ensures { result ≡ unexpected_rule self.now character }
    {
        if (character == '(' || character == '{') && self.brackets.len() >= MAX_DEPTH {
            return Rule::TooDeep;
        }
        match self.phase {
            Phase::End(_) => Rule::TrailingText,
            _ => Rule::UnexpectedByte,
        }
    }

    /// The refusal of a character with which the text can't go on.
    fn unexpected(&self, alloc: Global, place: u32, character: char) -> Result<(), ReadError>
        ensures { result ≡ Err (read_errors.Refused
            (refusal (unexpected_rule self.now character) place)) }
    {
        Err(refusal(alloc, self.unexpected_rule(character), place))
    }

    /// Begins a word or a quoted string.
    #[tactic(auto, unfolding(crate::specs::Reading::text_begun))]
    fn text_begun(&mut self, alloc: Global, place: u32, character: char) -> Result<(), ReadError>
        ensures { Changes result self.new (text_begun self.old place character) }
    {
        if character == '"' {
            self.token = Token::Quoted(place);
            return Ok(());
        }
        if !is_word(character) {
            return self.unexpected(alloc, place, character);
        }
        self.text.push(character)?;
        self.token = Token::Word(place);
        Ok(())
    }

    /// Opens a bracket.
    #[tactic(auto, unfolding(crate::specs::Reading::bracket_opened))]
    fn bracket_opened(
        &mut self,
        alloc: Global,
        place: u32,
        character: char,
    ) -> Result<(), ReadError>
        ensures { Changes result self.new (bracket_opened self.old place character) }
    {
        if self.brackets.len() >= MAX_DEPTH {
            return self.unexpected(alloc, place, character);
        }
        if character == '(' {
            self.brackets
                .push(Open::Items(place, Sequence::new(alloc)))?;
            self.phase = Phase::Item;
        } else {
            self.brackets.push(Open::Pairs(Dictionary {
                place,
                keys: Keys::new(alloc),
                pairs: Sequence::new(alloc),
                key: 0,
            }))?;
            self.phase = Phase::Key;
        }
        Ok(())
    }

    /// Begins a value.
    #[tactic(auto, unfolding(crate::specs::Reading::value_begun))]
    fn value_begun(&mut self, alloc: Global, place: u32, character: char) -> Result<(), ReadError>
        ensures { Changes result self.new (value_begun self.old place character) }
    {
        if character == '(' || character == '{' {
            return self.bracket_opened(alloc, place, character);
        }
        if character == '<' {
            self.token = Token::Bytes(place);
            return Ok(());
        }
        self.text_begun(alloc, place, character)
    }

    /// Closes a list.
    #[tactic(auto, unfolding(crate::specs::Reading::list_closed))]
    fn list_closed(&mut self, alloc: Global, place: u32) -> Result<(), ReadError>
        requires { place + 1 < 2 ^ 32 }
        ensures { Changes result self.new (list_closed self.old place) }
    {
        let Some(Open::Items(at, items)) = self.brackets.pop() else {
            return Err(refusal(alloc, Rule::UnexpectedByte, place));
        };
        self.value_ended(at, place + 1, TreeValue::Items(items))
    }

    /// Closes a dictionary.
    #[tactic(auto, unfolding(crate::specs::Reading::dictionary_closed))]
    fn dictionary_closed(&mut self, alloc: Global, place: u32) -> Result<(), ReadError>
        requires { place + 1 < 2 ^ 32 }
        ensures { Changes result self.new (dictionary_closed self.old place) }
    {
        let Some(Open::Pairs(dictionary)) = self.brackets.pop() else {
            return Err(refusal(alloc, Rule::UnexpectedByte, place));
        };
        self.value_ended(
            dictionary.place,
            place + 1,
            TreeValue::Pairs(dictionary.pairs),
        )
    }

    /// Takes a character between two tokens.
    #[tactic(auto, unfolding(crate::specs::Reading::between))]
    fn between(&mut self, alloc: Global, place: u32, character: char) -> Result<(), ReadError>
        requires { place + 1 < 2 ^ 32 }
        ensures { Changes result self.new (between self.old place character) }
    {
        if is_space(character) {
            return Ok(());
        }
        match (self.phase, character) {
            (Phase::Item | Phase::ItemEnd, ')') => self.list_closed(alloc, place),
            (Phase::Value | Phase::Item, _) => self.value_begun(alloc, place, character),
            (Phase::Key, '}') => self.dictionary_closed(alloc, place),
            (Phase::Key, _) => self.text_begun(alloc, place, character),
            (Phase::ItemEnd, ',') => {
                self.phase = Phase::Item;
                Ok(())
            }
            (Phase::KeyEnd, '=') => {
                self.phase = Phase::Value;
                Ok(())
            }
            (Phase::PairEnd, ';') => {
                self.phase = Phase::Key;
                Ok(())
            }
            _ => self.unexpected(alloc, place, character),
        }
    }

    /// Takes a character in or behind a word.
    #[tactic(auto, unfolding(crate::specs::Reading::in_word))]
    fn in_word(
        &mut self,
        alloc: Global,
        at: u32,
        place: u32,
        character: char,
    ) -> Result<(), ReadError>
        requires { place + 1 < 2 ^ 32 }
        ensures { Changes result self.new (in_word self.old at place character) }
    {
        if is_word(character) {
            self.text.push(character)?;
            return Ok(());
        }
        self.text_ended(alloc, at, place)?;
        self.between(alloc, place, character)
    }

    /// Takes a character of a quoted string.
    #[tactic(auto, unfolding(crate::specs::Reading::in_quoted))]
    fn in_quoted(
        &mut self,
        alloc: Global,
        at: u32,
        place: u32,
        character: char,
    ) -> Result<(), ReadError>
        requires { place + 1 < 2 ^ 32 }
        ensures { Changes result self.new (in_quoted self.old at place character) }
    {
        match character {
            '"' => self.text_ended(alloc, at, place + 1),
            '\\' => {
                self.token = Token::Escape(at, place, Escape::Begun);
                Ok(())
            }
            _ => {
                self.text.push(character)?;
                Ok(())
            }
        }
    }

    /// Takes a character of an escape, with what it makes of it.
    fn after_escape(
        &mut self,
        alloc: Global,
        at: u32,
        backslash: u32,
        escaped: Escaped,
    ) -> Result<(), ReadError>
        ensures { Changes result self.new (after_escape self.old at backslash escaped) }
    {
        match escaped {
            Escaped::More(escape) => {
                self.token = Token::Escape(at, backslash, escape);
                Ok(())
            }
            Escaped::Whole(character) => {
                self.text.push(character)?;
                self.token = Token::Quoted(at);
                Ok(())
            }
            Escaped::Wrong => Err(refusal(alloc, Rule::BadEscape, backslash)),
        }
    }

    /// Takes a character of a byte string between two bytes.
    #[tactic(auto, unfolding(crate::specs::Reading::in_bytes))]
    fn in_bytes(
        &mut self,
        alloc: Global,
        at: u32,
        place: u32,
        character: char,
    ) -> Result<(), ReadError>
        requires { place + 1 < 2 ^ 32 }
        ensures { Changes result self.new (in_bytes self.old at place character) }
    {
        if is_space(character) {
            return Ok(());
        }
        if character == '>' {
            let bytes = mem::replace(&mut self.bytes, Sequence::new(alloc));
            self.token = Token::Between;
            return self.value_ended(at, place + 1, TreeValue::Bytes(bytes));
        }
        if hex_value(character).is_none() {
            return self.unexpected(alloc, place, character);
        }
        self.token = Token::Half(at, character);
        Ok(())
    }

    /// Takes a character of a byte string behind the first digit of a byte.
    #[tactic(auto, unfolding(crate::specs::Reading::in_half))]
    fn in_half(
        &mut self,
        alloc: Global,
        at: u32,
        high: char,
        place: u32,
        character: char,
    ) -> Result<(), ReadError>
        ensures { Changes result self.new (in_half self.old at high place character) }
    {
        if is_space(character) {
            return Ok(());
        }
        match byte_of(high, character) {
            Some(byte) => {
                self.bytes.push(byte)?;
                self.token = Token::Bytes(at);
                Ok(())
            }
            None => self.unexpected(alloc, place, character),
        }
    }

    /// Takes the character at a place.
    #[tactic(auto, unfolding(crate::specs::Reading::step))]
    pub(crate) fn step(
        &mut self,
        alloc: Global,
        place: u32,
        character: char,
    ) -> Result<(), ReadError>
        requires { place + 1 < 2 ^ 32 }
        ensures { Changes result self.new (step self.old place character) }
    {
        match self.token {
            Token::Between => self.between(alloc, place, character),
            Token::Word(at) => self.in_word(alloc, at, place, character),
            Token::Quoted(at) => self.in_quoted(alloc, at, place, character),
            Token::Escape(at, backslash, escape) => self.after_escape(
                alloc,
                at,
                backslash,
                escape.next(character),
            ),
            Token::Bytes(at) => self.in_bytes(alloc, at, place, character),
            Token::Half(at, high) => self.in_half(alloc, at, high, place, character),
        }
    }

    /// The tree of the text that ends here.
    #[tactic(auto, unfolding(crate::specs::Reading::whole))]
    fn whole(self, alloc: Global, length: u32) -> Result<Tree, ReadError>
        ensures { Gives (λ t. t) result (whole self length) }
    {
        match self.phase {
            Phase::End(top) => Ok(Tree {
                nodes: self.nodes,
                top,
            }),
            _ => Err(refusal(alloc, Rule::UnexpectedEnd, length)),
        }
    }

    /// Ends the text.
    #[tactic(auto, unfolding(crate::specs::Reading::finish))]
    pub(crate) fn finish(mut self, alloc: Global, length: u32) -> Result<Tree, ReadError>
        ensures { Gives (λ t. t) result (finish self length) }
    {
        match self.token {
            Token::Between => self.whole(alloc, length),
            Token::Word(at) if self.brackets.len() == 0 => {
                self.text_ended(alloc, at, length)?;
                self.whole(alloc, length)
            }
            _ => Err(refusal(alloc, Rule::UnexpectedEnd, length)),
        }
    }
}
