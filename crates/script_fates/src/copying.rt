// Control files that a sender has read: copied, and compared.
ghost use Rattle.std.specs.Prelude.{◌≡◌, ◌↔◌, IfOk, IsTrue};
ghost use Rattle.queue_law.specs.Ledgers.{unrouted};

use address_rules::{Controls, TextList, VirtualDomain, VirtualDomains};
use mail_bytes::{ByteText, Memory};
use std::alloc::Global;

/// No controls. Takes no memory.
pub fn unrouted(alloc: Global) -> Controls
    ensures { result ≡ unrouted }
{
    Controls {
        me: ByteText::new(alloc),
        locals: TextList::from_vec(Vec::new(alloc)),
        percent_hack: TextList::from_vec(Vec::new(alloc)),
        virtual_domains: VirtualDomains::from_vec(Vec::new(alloc)),
        env_no_at_host: ByteText::new(alloc),
        bounce_from: ByteText::new(alloc),
        bounce_host: ByteText::new(alloc),
        double_bounce_to: ByteText::new(alloc),
        double_bounce_host: ByteText::new(alloc),
        concurrency_local: 0,
        concurrency_remote: 0,
        queue_lifetime: 0,
    }
}

/// The same controls once more.
pub fn copied(alloc: Global, controls: &Controls) -> Result<Controls, Memory>
    ensures { IfOk result (λ copy. copy ≡ controls.now) }
{
    let (me, env_no_at_host, bounce_from) = three_of(
        alloc,
        &controls.me,
        &controls.env_no_at_host,
        &controls.bounce_from,
    )?;
    let (bounce_host, double_bounce_to, double_bounce_host) = three_of(
        alloc,
        &controls.bounce_host,
        &controls.double_bounce_to,
        &controls.double_bounce_host,
    )?;
    let (locals, percent_hack, virtual_domains) = lists_of(alloc, controls)?;
    Ok(Controls {
        me,
        locals,
        percent_hack,
        virtual_domains,
        env_no_at_host,
        bounce_from,
        bounce_host,
        double_bounce_to,
        double_bounce_host,
        concurrency_local: controls.concurrency_local,
        concurrency_remote: controls.concurrency_remote,
        queue_lifetime: controls.queue_lifetime,
    })
}

/// The lists of these controls once more.
fn lists_of(
    alloc: Global,
    controls: &Controls,
) -> Result<(TextList, TextList, VirtualDomains), Memory>
    ensures { IfOk result (λ lists. lists ≡ (controls.now.locals, controls.now.percent_hack, controls.now.virtual_domains)) }
{
    Ok((
        texts_of(alloc, &controls.locals)?,
        texts_of(alloc, &controls.percent_hack)?,
        lines_of(alloc, &controls.virtual_domains)?,
    ))
}

/// The same three texts once more.
fn three_of(
    alloc: Global,
    one: &ByteText,
    two: &ByteText,
    three: &ByteText,
) -> Result<(ByteText, ByteText, ByteText), Memory>
    ensures { IfOk result (λ texts. texts ≡ (one.now, two.now, three.now)) }
{
    Ok((
        text_of(alloc, one)?,
        text_of(alloc, two)?,
        text_of(alloc, three)?,
    ))
}

/// The same text once more.
fn text_of(alloc: Global, text: &ByteText) -> Result<ByteText, Memory>
    ensures { IfOk result (λ copy. copy ≡ text.now) }
{
    ByteText::from_slice(alloc, text.as_slice())
}

/// The same texts once more.
fn texts_of(alloc: Global, list: &TextList) -> Result<TextList, Memory>
    ensures { IfOk result (λ copy. copy ≡ list.now) }
{
    let mut texts = Vec::new(alloc);
    for text in list.as_slice() {
        texts.push(text_of(alloc, text)?)?;
    }
    Ok(TextList::from_vec(texts))
}

/// The same lines once more.
fn lines_of(alloc: Global, domains: &VirtualDomains) -> Result<VirtualDomains, Memory>
    ensures { IfOk result (λ copy. copy ≡ domains.now) }
{
    let mut lines = Vec::new(alloc);
    for line in domains.as_slice() {
        lines.push(VirtualDomain {
            domain: text_of(alloc, &line.domain)?,
            prefix: text_of(alloc, &line.prefix)?,
        })?;
    }
    Ok(VirtualDomains::from_vec(lines))
}

/// Whether these are the same controls.
pub fn are_same(one: &Controls, other: &Controls) -> bool
    ensures { IsTrue result ↔ (one.now ≡ other.now) }
{
    is_same(&one.me, &other.me)
        & are_same_texts(&one.locals, &other.locals)
        & are_same_texts(&one.percent_hack, &other.percent_hack)
        & are_same_lines(&one.virtual_domains, &other.virtual_domains)
        & is_same(&one.env_no_at_host, &other.env_no_at_host)
        & is_same(&one.bounce_from, &other.bounce_from)
        & is_same(&one.bounce_host, &other.bounce_host)
        & is_same(&one.double_bounce_to, &other.double_bounce_to)
        & is_same(&one.double_bounce_host, &other.double_bounce_host)
        & (one.concurrency_local == other.concurrency_local)
        & (one.concurrency_remote == other.concurrency_remote)
        & (one.queue_lifetime == other.queue_lifetime)
}

/// Whether these are the same text.
fn is_same(one: &ByteText, other: &ByteText) -> bool
    ensures { IsTrue result ↔ (one.now ≡ other.now) }
{
    one.is(other.as_slice())
}

/// Whether these are the same texts.
fn are_same_texts(one: &TextList, other: &TextList) -> bool
    ensures { IsTrue result ↔ (one.now ≡ other.now) }
{
    let (texts, others) = (one.as_slice(), other.as_slice());
    if texts.len() != others.len() {
        return false;
    }
    for at in 0..texts.len() {
        if !is_same(&texts[at], &others[at]) {
            return false;
        }
    }
    true
}

/// Whether these are the same lines.
fn are_same_lines(one: &VirtualDomains, other: &VirtualDomains) -> bool
    ensures { IsTrue result ↔ (one.now ≡ other.now) }
{
    let (lines, others) = (one.as_slice(), other.as_slice());
    if lines.len() != others.len() {
        return false;
    }
    for at in 0..lines.len() {
        if !is_same_line(&lines[at], &others[at]) {
            return false;
        }
    }
    true
}

/// Whether these are the same line.
fn is_same_line(one: &VirtualDomain, other: &VirtualDomain) -> bool
    ensures { IsTrue result ↔ (one.now ≡ other.now) }
{
    is_same(&one.domain, &other.domain) & is_same(&one.prefix, &other.prefix)
}
