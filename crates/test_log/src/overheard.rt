// What is overheard of an adapter whose messages come in pieces.
use crate::exchanges::{LONG, begin, noop};
use reg_adapter::Messages;
use reg_adapter_line::{
    AdapterChain, AdapterLine, AskedFor, Heard, LineEnd, Overhear, read_messages, send_requests,
    tell_all,
};
use reg_chain::{Chain, ChainAnswer};
use std::alloc::{AllocError, Global};
use std::io::{self, ErrorKind, Write};
use std::sync::{Mutex, Wait};
use std::test::Fail;
use std::thread;
use std::time::Clock;
use test_tools::{NO_FAULT, PiecedBytes};

/// What is said.
#[derive(Clone, Copy, Debug, PartialEq, Eq)]
enum Said {
    ByAdapter(Heard),
    ByProcess(AskedFor),
}

/// Notes what is said, in its order.
#[derive(Drop)]
struct Recorder<R: Drop> {
    rt: R,
    said: Mutex<Vec<Said>>,
}

impl<R: Wait + Drop> Recorder<R> {
    /// Nothing is said yet. There is room for more than a test says.
    fn new(rt: R, alloc: Global) -> Result<Recorder<R>, AllocError> {
        Ok(Recorder {
            rt,
            said: Mutex::new(Vec::with_capacity(alloc, 20)?),
        })
    }

    fn note(&self, said: Said) {
        let _noted = self.said.lock(&self.rt).push(said);
    }

    /// Whether this was said, and nothing else.
    fn has(&self, wanted: &[Said]) -> bool {
        self.said.lock(&self.rt).as_slice() == wanted
    }
}

impl<R: Wait + Drop> Overhear for Recorder<R> {
    fn heard(&self, message: Heard) {
        self.note(Said::ByAdapter(message));
    }

    fn asked(&self, request: AskedFor) {
        self.note(Said::ByProcess(request));
    }
}

/// An adapter that answers each request by the next of its texts, in pieces of so many bytes, and fails once there is none.
#[derive(Drop)]
struct Scripted<'a, R: Drop> {
    rt: R,
    line: &'a AdapterLine,
    recorder: &'a Recorder<R>,
    messages: Messages,
    /// How many texts were said.
    said: usize,
    size: usize,
}

impl<R: Wait + Clock + Drop> Scripted<'_, R> {
    /// Says a text.
    fn say(&mut self, text: &str) -> Result<(), AllocError> {
        for piece in text.as_bytes().chunks(self.size.max(1)) {
            self.messages.take(piece)?;
            tell_all(&self.rt, &mut self.messages, self.line, self.recorder);
        }
        Ok(())
    }
}

impl<R: Wait + Clock + Drop> Write for Scripted<'_, R> {
    fn write(&mut self, buf: &[u8]) -> io::Result<usize> {
        Ok(buf.len())
    }

    fn flush(&mut self) -> io::Result<()> {
        let Some(text) = ANSWERS.get(self.said) else {
            return Err(io::Error::from(ErrorKind::Other));
        };
        self.said = self.said.saturating_add(1);
        self.say(text)?;
        Ok(())
    }
}

/// What an adapter answers, one after the other.
static ANSWERS: [&str; 4] = [
    "kept\n",
    "batch\n6\t{\"keytype\":\"NOOP\",\"magic\":0}\tnull\n\nbehind\n",
    "declined\n",
    "ready\nlost\n",
];

/// What is said then.
static CONVERSATION: [Said; 10] = [
    Said::ByProcess(AskedFor::Batch),
    Said::ByAdapter(Heard::Kept),
    Said::ByProcess(AskedFor::Check),
    Said::ByAdapter(Heard::Batch),
    Said::ByAdapter(Heard::Behind),
    Said::ByProcess(AskedFor::Batch),
    Said::ByAdapter(Heard::Declined),
    Said::ByProcess(AskedFor::Check),
    Said::ByAdapter(Heard::Ready),
    Said::ByAdapter(Heard::Lost),
];

/// Asks four times, and takes what others wrote.
fn ask_all<R: Wait + Clock + Drop>(chain: &mut AdapterChain<R>) -> [ChainAnswer; 4] {
    let first = chain.append(&[noop(5)]);
    let second = chain.append(&[]);
    let _sixth = chain.next();
    let third = chain.append(&[noop(7)]);
    let fourth = chain.append(&[]);
    [first, second, third, fourth]
}

#[test]
fn a_conversation_is_overheard(rt: HostRuntime) -> Result<(), Fail> {
    let alloc = rt.alloc();
    for size in [1, 2, 5, 1_000] {
        let (line, mut chain) = begin(rt, alloc, LONG)?;
        let recorder = Recorder::new(rt, alloc)?;
        let shared: &AdapterLine = &line;
        let (answers, ()) = thread::join(
            &rt,
            || {
                let answers = ask_all(&mut chain);
                let mut nothing: &[u8] = b"";
                read_messages(&rt, alloc, &mut nothing, shared, &recorder);
                answers
            },
            || {
                let mut adapter = Scripted {
                    rt,
                    line: shared,
                    recorder: &recorder,
                    messages: Messages::new(alloc),
                    said: 0,
                    size,
                };
                send_requests(&rt, &mut adapter, shared, &recorder);
            },
        );
        let wanted = [
            ChainAnswer::Kept,
            ChainAnswer::Behind,
            ChainAnswer::Declined,
            ChainAnswer::Unknown,
        ];
        assert!(rt; answers == wanted);
        assert!(rt; recorder.has(&CONVERSATION), "in pieces of {size} bytes");
    }
    Ok(())
}

/// How a line ends over which a text comes, in pieces of each size; none where it is something else that is heard.
fn end_over<R: Wait + Clock + Copy + Drop>(
    rt: R,
    alloc: Global,
    text: &str,
    wanted: &[Said],
) -> Result<Option<LineEnd>, Fail> {
    let mut end = None;
    for size in 1..=text.len() {
        let (line, _chain) = begin(rt, alloc, LONG)?;
        let recorder = Recorder::new(rt, alloc)?;
        let mut input = PiecedBytes::new(text.as_bytes(), size, NO_FAULT);
        read_messages(&rt, alloc, &mut input, &line, &recorder);
        if !recorder.has(wanted) {
            return Ok(None);
        }
        end = line.end(&rt);
    }
    Ok(end)
}

#[test]
fn each_message_is_heard_once(rt: HostRuntime) -> Result<(), Fail> {
    let text = "batch\n5\t{\"keytype\":\"NOOP\",\"magic\":0}\tnull\n\nready\n\
        batch\n6\tx\tbatch\n7\tkept\tnull\n\nkept\nready\n";
    let wanted = [
        Said::ByAdapter(Heard::Batch),
        Said::ByAdapter(Heard::Ready),
        Said::ByAdapter(Heard::Batch),
        Said::ByAdapter(Heard::Kept),
    ];
    let end = end_over(rt, rt.alloc(), text, &wanted)?;
    assert!(rt; end == Some(LineEnd::NobodyAsked));
    Ok(())
}

#[test]
fn what_is_no_message_is_not_heard(rt: HostRuntime) -> Result<(), Fail> {
    for text in [
        "declinedx\n",
        "xkept\n",
        "kept \n",
        "kep\n",
        "batchkept\n",
        "kept",
        "batch\nkept\n",
    ] {
        let end = end_over(rt, rt.alloc(), text, &[])?;
        assert!(rt; matches!(end, Some(LineEnd::Fault(_))), "{text}");
    }
    Ok(())
}
