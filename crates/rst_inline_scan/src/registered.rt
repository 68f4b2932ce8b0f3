//! Standalone URIs of registered schemes.
ghost use Rattle.std.specs.Prelude.{◌≡◌, ◌<◌, ◌≤◌, length, IfSome};
ghost use Rattle.rst_inline_scan.specs.Uri.{has_any_case};
ghost use Rattle.rst_inline_scan.specs.Words.{IsWord};
ghost use Rattle.rst_inline_scan.specs.Registered.{registered_end, is_uric, is_uric_at, uric_stop, is_link_last, ends_link, part_stop, uri_limit, last_end, registered_uri, may_name_scheme};

use super::characters::is_free_after;
use super::piece::{Kind, Piece};
use super::uri::{begins_at, is_uri_char};
use rst_text::has;

/// The registered schemes, in lower case, each with its colon. They are those of Docutils 0.19 (`docutils.utils.urischemes`): IANA's registry of URI
/// schemes as it was on 2005-11-28, and schemes of an older list of the W3C (<https://www.w3.org/Addressing/schemes.html>).
const REGISTERED: [&str; 108] = [
    "about:",
    "acap:",
    "addbook:",
    "afp:",
    "afs:",
    "aim:",
    "callto:",
    "castanet:",
    "chttp:",
    "cid:",
    "crid:",
    "data:",
    "dav:",
    "dict:",
    "dns:",
    "eid:",
    "fax:",
    "feed:",
    "file:",
    "finger:",
    "freenet:",
    "ftp:",
    "go:",
    "gopher:",
    "gsm-sms:",
    "h323:",
    "h324:",
    "hdl:",
    "hnews:",
    "http:",
    "https:",
    "hydra:",
    "iioploc:",
    "ilu:",
    "im:",
    "imap:",
    "info:",
    "ior:",
    "ipp:",
    "irc:",
    "iris.beep:",
    "iseek:",
    "jar:",
    "javascript:",
    "jdbc:",
    "ldap:",
    "lifn:",
    "livescript:",
    "lrq:",
    "mailbox:",
    "mailserver:",
    "mailto:",
    "md5:",
    "mid:",
    "mocha:",
    "modem:",
    "mtqp:",
    "mupdate:",
    "news:",
    "nfs:",
    "nntp:",
    "opaquelocktoken:",
    "phone:",
    "pop:",
    "pop3:",
    "pres:",
    "printer:",
    "prospero:",
    "rdar:",
    "res:",
    "rtsp:",
    "rvp:",
    "rwhois:",
    "rx:",
    "sdp:",
    "service:",
    "shttp:",
    "sip:",
    "sips:",
    "smb:",
    "snews:",
    "snmp:",
    "soap.beep:",
    "soap.beeps:",
    "ssh:",
    "t120:",
    "tag:",
    "tcp:",
    "tel:",
    "telephone:",
    "telnet:",
    "tftp:",
    "tip:",
    "tn3270:",
    "tv:",
    "urn:",
    "uuid:",
    "vemmi:",
    "videotex:",
    "view-source:",
    "wais:",
    "whodp:",
    "whois++:",
    "x-man-page:",
    "xmlrpc.beep:",
    "xmlrpc.beeps:",
    "z39.50r:",
    "z39.50s:",
];

/// Whether a word that ends at the place may begin a registered scheme.
fn may_name_scheme(text: &[char], place: usize) -> bool
    ensures { result ≡ may_name_scheme text.now place }
{
    has(text, place, ':') || has(text, place, '-') || has(text, place, '.') || has(text, place, '+')
}

/// The place after the registered scheme and its colon that begin at the place.
#[tactic(auto, unfolding(crate::specs::Registered::registered_end))]
fn registered_end(text: &[char], place: usize) -> Option<usize>
    requires { place ≤ length text.now }
    ensures exact { result ≡ registered_end text.now place }
    ensures above { IfSome result (λ end. place < end) }
    ensures below { IfSome result (λ end. end ≤ length text.now) }
{
    for scheme in &REGISTERED {
        if begins_at(text, place, scheme) {
            return Some(place + scheme.len());
        }
    }
    None
}

/// Whether the hierarchical part, the query and the fragment of a URI may hold the character.
#[tactic(auto, unfolding(crate::specs::Registered::is_uric))]
fn is_uric(c: char) -> bool
    ensures { result ≡ is_uric c }
{
    is_uri_char(c) && c != '?' && c != '#'
}

/// Whether such a character is at the place, or a backslash that is no part of an escaped backslash.
fn is_uric_at(text: &[char], place: usize) -> bool
    ensures { result ≡ is_uric_at text.now place }
{
    place < text.len()
        && (is_uric(text[place]) || (has(text, place, '\\') && !has(text, place + 1, '\\')))
}

/// The least place from the place on that is of no such part, or the text's end.
fn uric_stop(text: &[char], start: usize) -> usize
    requires { start ≤ length text.now }
    ensures exact { result ≡ uric_stop text.now start }
    ensures above { start ≤ result }
    ensures below { result ≤ length text.now }
{
    for place in start..text.len() {
        if !is_uric_at(text, place) {
            return place;
        }
    }
    text.len()
}

/// Whether a URI or an e-mail address may end with the character.
#[tactic(auto, unfolding(crate::specs::Registered::is_link_last))]
fn is_link_last(c: char) -> bool
    ensures { result ≡ is_link_last c }
{
    c.is_ascii_alphanumeric() || matches!(c, '_' | '~' | '*' | '/' | '=' | '+')
}

/// Whether a URI or an e-mail address may end before the place.
#[tactic(auto, unfolding(crate::specs::Registered::ends_link))]
pub(crate) fn ends_link(text: &[char], place: usize) -> bool
    requires { 0 < place }
    ensures { result ≡ ends_link text.now place }
{
    if text.len() < place {
        return false;
    }
    (is_link_last(text[place - 1]) || (has(text, place, '>') && is_uric_at(text, place - 1)))
        && is_free_after(text, place)
}

/// The place up to which the part after the mark may go, where that before it may end at the place and the mark is there: else the place.
#[tactic(auto, unfolding(crate::specs::Registered::part_stop))]
fn part_stop(text: &[char], place: usize, mark: char) -> usize
    requires { 0 < place }
    ensures exact { result ≡ part_stop mark text.now place }
    ensures above { place ≤ result }
{
    if has(text, place, mark) && is_link_last(text[place - 1]) {
        uric_stop(text, place + 1)
    } else {
        place
    }
}

/// The greatest place up to which a URI may go whose scheme and colon end at the place.
fn uri_limit(text: &[char], start: usize) -> usize
    requires above { 0 < start }
    requires below { start ≤ length text.now }
    ensures { result ≡ uri_limit text.now start }
{
    let path = uric_stop(text, start);
    let query = part_stop(text, path, '?');
    part_stop(text, query, '#')
}

/// The greatest end of a URI whose scheme and colon end at the place.
fn last_end(text: &[char], start: usize) -> Option<usize>
    requires above { 0 < start }
    requires below { start ≤ length text.now }
    ensures { result ≡ last_end text.now start }
{
    let mut end = uri_limit(text, start);
    while start < end {
        if ends_link(text, end) {
            return Some(end);
        }
        end -= 1;
    }
    None
}

/// The URI of a registered scheme that begins at the place, with the word that ends at `end`. Where a search for the end of one fails, no other begins
/// before the place that it has reached: the colon after that scheme would have ended the first.
#[tactic(auto, unfolding(crate::specs::Registered::registered_uri))]
pub(crate) fn registered_uri(text: &[char], place: usize, end: usize) -> Option<Piece>
    requires place { place < length text.now }
    requires word { IsWord text.now place end }
    ensures { result ≡ registered_uri text.now place }
{
    if !may_name_scheme(text, end) {
        return None;
    }
    let after_scheme = registered_end(text, place)?;
    let to = last_end(text, after_scheme)?;
    Some(Piece {
        kind: Kind::Uri,
        from: place,
        content_from: place,
        content_to: to,
        to,
    })
}
