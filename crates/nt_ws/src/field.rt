//! Questions to the fields of a head.

ghost use Rattle.std.specs.Prelude.{◌≡◌, reverse, map, length, All, option_map};
ghost use Rattle.httparse.specs.Grammar.{skip_ows, trim_ows};
ghost use Rattle.httparse.specs.Spans.{IsHeaderWithin, header_bytes};
ghost use Rattle.nt_ws.specs.Fields.{is_same_word, has_word, has_member, list_word, list_member, only_value, is_only};
ghost use Rattle.nt_ws.specs.Heads.{is_upgrade};

use httparse::is_space_or_tab;
use httparse::spans::HeaderSpan;
use std::marker::Model;

/// A value without the blanks at its front.
fn trimmed_front(mut value: &[u8]) -> &[u8]
    ensures { result.now ≡ skip_ows value.now }
{
    while let [first, rest @ ..] = value
        && is_space_or_tab(*first)
    {
        value = rest;
    }
    value
}

/// A value without the blanks at its back.
fn trimmed_back(mut value: &[u8]) -> &[u8]
    ensures { result.now ≡ reverse (skip_ows (reverse value.now)) }
{
    while let [rest @ .., last] = value
        && is_space_or_tab(*last)
    {
        value = rest;
    }
    value
}

/// A value without the blanks at both ends.
fn trimmed(value: &[u8]) -> &[u8]
    ensures { result.now ≡ trim_ows value.now }
{
    trimmed_back(trimmed_front(value))
}

/// Whether two words are the same but for the case of ASCII letters.
fn is_same_word(a: &[u8], b: &[u8]) -> bool
    ensures { result ≡ is_same_word a.now b.now }
{
    a.eq_ignore_ascii_case(b)
}

/// Whether a list has this word as a member, in any case.
fn has_word(list: &[u8], word: &[u8]) -> bool
    ensures { result ≡ has_word list.now word.now }
{
    list.split(|b| *b == b',')
        .any(|member| is_same_word(trimmed(member), word))
}

/// Whether a list has this member.
fn has_member(list: &[u8], member: &[u8]) -> bool
    ensures { result ≡ has_member list.now member.now }
{
    list.split(|b| *b == b',')
        .any(|other| trimmed(other) == member)
}

/// The fields of a head.
#[derive(Drop)]
pub(crate) struct Fields<'a> {
    head: &'a [u8],
    spans: &'a [HeaderSpan],
}

impl<'a> Model for Fields<'a> {
    ghost use Rattle.std.specs.Prelude.{List, map, length, All};
    ghost use Rattle.httparse.specs.Spans.{IsHeaderWithin, header_bytes};
    ghost use Rattle.nt_ws.specs.Fields.{Field};

    ghost Value = { List Field };

    ghost view = { λ f. map (header_bytes f.head.now) f.spans.now };

    ghost invariant = { λ f. All (IsHeaderWithin (length f.head.now)) f.spans.now };
}

impl<'a> Fields<'a> {
    /// The fields that these spans cover.
    pub(crate) fn new(head: &'a [u8], spans: &'a [HeaderSpan]) -> Fields<'a>
        requires { All (IsHeaderWithin (length head.now)) spans.now }
        ensures { result ≡ map (header_bytes head.now) spans.now }
    {
        Fields { head, spans }
    }

    /// Whether a field of this name lists this word, in any case.
    pub(crate) fn list_word(&self, name: &[u8], word: &[u8]) -> bool
        ensures { result ≡ list_word name.now word.now self.now }
    {
        let (head, spans) = (self.head, self.spans);
        for field in spans {
            if is_same_word(field.name.of(head), name) && has_word(field.value.of(head), word) {
                return true;
            }
        }
        false
    }

    /// Whether a field of this name lists this member.
    pub(crate) fn list_member(&self, name: &[u8], member: &[u8]) -> bool
        ensures { result ≡ list_member name.now member.now self.now }
    {
        let (head, spans) = (self.head, self.spans);
        for field in spans {
            if is_same_word(field.name.of(head), name) && has_member(field.value.of(head), member) {
                return true;
            }
        }
        false
    }

    /// The value of the field of this name, where there is exactly one such field.
    pub(crate) fn only_value(&self, name: &[u8]) -> Option<&'a [u8]>
        ensures { option_map (λ value. value.now) result ≡ only_value name.now self.now }
    {
        let (head, spans) = (self.head, self.spans);
        let mut found = None;
        for field in spans {
            if is_same_word(field.name.of(head), name) {
                if found.is_some() {
                    return None;
                }
                found = Some(field.value.of(head));
            }
        }
        found
    }

    /// Whether there is exactly one field of this name, and this is its value.
    pub(crate) fn is_only(&self, name: &[u8], value: &[u8]) -> bool
        ensures { result ≡ is_only name.now value.now self.now }
    {
        match self.only_value(name) {
            Some(found) => found == value,
            None => false,
        }
    }

    /// Whether the fields ask for an upgrade to a WebSocket, or agree to it.
    pub(crate) fn is_upgrade(&self) -> bool
        ensures { result ≡ is_upgrade self.now }
    {
        self.list_word(b"upgrade", b"websocket") && self.list_word(b"connection", b"upgrade")
    }
}
