ghost use Rattle.std.specs.Prelude.{◌≡◌, ◌-◌, ◌<◌, ◌≤◌, true, false, None, [], ◌∷◌, ◌++◌, length, get_or, take, IfOk};
ghost use Rattle.memchr.specs.Find.{IsFirstByte, is_byte};
ghost use Rattle.board_server.specs.Served.{Sounds};
ghost use Rattle.board_server.specs.Streams.{is_end, new_stream, fed, has_room, finished, cleared};

use crate::server::Server;
use memchr::memchr_iter;
use std::alloc::{AllocError, Global};
use std::marker::Model;
use text::{Line, Page};

// How long the answers may get before they are to be written out: what is left holds one more.
const FULL: usize = 65472;

// As many bytes of a line as tell whether it is too long.
const LINE_BYTES: usize = 81;

// The boards as a program runs them: bytes come in, and answer lines go out.
#[derive(Drop)]
pub struct Stream {
    server: Server,
    line: Line,
    text: Page,
}

// Clauses see the states of the boards, the bytes of the line and those of the answers.
impl Model for Stream {
    ghost use Rattle.board_server.specs.Served.{boards_of};
    ghost use Rattle.board_server.specs.Streams.{Streamed, streamed};

    ghost Value = { Streamed };

    ghost view = { λ s. streamed (boards_of s.server) s.line s.text };
}

impl Stream {
    pub fn new(alloc: Global) -> Result<Stream, AllocError>
        ensures value { IfOk result (λ s. s ≡ new_stream) }
        ensures sound { IfOk result (λ s. Sounds s.boards) }
    {
        let server = Server::new(alloc)?;
        Ok(Stream {
            server,
            line: Line::new(),
            text: Page::new(),
        })
    }

    // What the type of a board's index says of both boards, for contracts that see no fields.
    fn both_sound(&self)
        ensures { Sounds self.now.boards }
    {
        let _ = &self.server;
    }

    // The answers so far. Whatever stream is at hand, both its boards are sound.
    pub fn text(&self) -> &[u8]
        ensures value { result.now ≡ self.now.text }
        ensures short { length result.now ≤ 65536 }
        ensures sound { Sounds self.now.boards }
    {
        self.text.as_bytes()
    }

    // Forgets the answers, once they are written out.
    pub fn clear(&mut self)
        ensures { self.new ≡ cleared self.old }
    {
        self.text.clear();
    }

    fn has_room(&self) -> bool
        ensures { result ≡ has_room self.now }
    {
        self.text.as_bytes().len() <= FULL
    }

    // Takes in what a line still lacks and the byte 10 that ends it, and answers it.
    fn end_line(&mut self, last: &[u8])
        requires inside { IsFirstByte (is_byte 10) last.now None }
        requires room { has_room self.old ≡ true }
        ensures { self.new ≡ fed self.old (last.now ++ 10 ∷ []) }
    {
        if self.line.as_bytes().is_empty() {
            // a line that is at hand whole is answered from where it lies
            let line = &last[..last.len().min(LINE_BYTES)];
            self.server.answer(line, &mut self.text);
        } else {
            self.line.push_bytes(last);
            self.server.answer(self.line.as_bytes(), &mut self.text);
            self.line.clear();
        }
        self.text.push(b'\n');
    }

    // Takes in bytes where there is room, all of them unless the answers run out of it, and says how many.
    // What a line begins with is taken in only where there is room for its answer.
    fn take_in(&mut self, bytes: &[u8]) -> usize
        requires { has_room self.old ≡ true }
        ensures fed { self.new ≡ fed self.old (take result bytes.now) }
        ensures bound { result ≤ length bytes.now }
        ensures all { has_room self.new ≡ true → result ≡ length bytes.now }
        ensures some { 0 < length bytes.now → 0 < result }
        ensures ends { has_room self.new ≡ false → 0 < result → is_end (get_or bytes.now (result - 1) 0) ≡ true }
    {
        let mut taken = 0;
        for end in memchr_iter(b'\n', bytes) {
            if !self.has_room() {
                return taken;
            }
            self.end_line(&bytes[taken..end]);
            taken = end + 1;
        }
        let room = self.has_room();
        if taken < bytes.len() && room {
            self.line.push_bytes(&bytes[taken..]);
            return bytes.len();
        }
        taken
    }

    // Takes in bytes, all of them unless the answers run out of room, and says how many. Where there is
    // room to begin with, it is at least one, and else none; where none is left, they end a line.
    pub fn feed(&mut self, bytes: &[u8]) -> usize
        ensures fed { self.new ≡ fed self.old (take result bytes.now) }
        ensures bound { result ≤ length bytes.now }
        ensures all { has_room self.new ≡ true → result ≡ length bytes.now }
        ensures some { has_room self.old ≡ true → 0 < length bytes.now → 0 < result }
        ensures none { has_room self.old ≡ false → result ≡ 0 }
        ensures ends { has_room self.new ≡ false → 0 < result → is_end (get_or bytes.now (result - 1) 0) ≡ true }
        ensures sound { Sounds self.new.boards }
    {
        let taken = if self.has_room() {
            self.take_in(bytes)
        } else {
            0
        };
        self.both_sound();
        taken
    }

    // The input has ended: a last line that lacks its byte 10 is answered too, if there is room.
    pub fn finish(&mut self)
        ensures value { self.new ≡ finished self.old }
        ensures sound { Sounds self.new.boards }
    {
        if !self.line.as_bytes().is_empty() && self.has_room() {
            self.end_line(&[]);
        }
        self.both_sound();
    }
}
