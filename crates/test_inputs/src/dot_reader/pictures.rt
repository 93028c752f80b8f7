//! A picture: its boxes, nodes and edges.

use crate::dot_reader::tokens::{Token, tokens_of};
use std::alloc::{AllocError, Global};

/// A node, and the names of the boxes around it, the outermost first.
#[derive(Drop)]
pub struct Node<'a> {
    pub name: &'a [u8],
    pub label: &'a [u8],
    pub boxes: Vec<&'a [u8]>,
}

/// An edge between two nodes, and the texts at its ends. A text that the picture leaves out is empty.
#[derive(Clone, Copy)]
pub struct Edge<'a> {
    pub from: &'a [u8],
    pub to: &'a [u8],
    pub tail: &'a [u8],
    pub head: &'a [u8],
    pub style: &'a [u8],
}

/// A picture, in the order of its text.
#[derive(Drop)]
pub struct Picture<'a> {
    /// The name and the label of each box, the whole picture first. A box that is opened again is here twice.
    pub boxes: Vec<(&'a [u8], &'a [u8])>,
    pub nodes: Vec<Node<'a>>,
    pub edges: Vec<Edge<'a>>,
    /// How many statements were none of these, and how many boxes did not end.
    pub unread: u64,
}

/// What was read so far, and the statement that is being read: its words, whether an arrow or `=` was among them, and the words
/// of its list of attributes.
#[derive(Drop)]
struct Reader<'a> {
    alloc: Global,
    picture: Picture<'a>,
    /// The names of the boxes that are open, the outermost first.
    open: Vec<&'a [u8]>,
    words: Vec<&'a [u8]>,
    has_arrow: bool,
    has_equals: bool,
    is_list: bool,
    list: Vec<&'a [u8]>,
}

/// The value of the attribute `name` in a list of names and values; empty where there is no such attribute.
fn value_of<'a>(list: &Vec<&'a [u8]>, name: &[u8]) -> &'a [u8] {
    let mut value: &'a [u8] = b"";
    let mut is_named = false;
    for (place, word) in list.iter().enumerate() {
        if place % 2 == 0 {
            is_named = *word == name;
        } else if is_named {
            value = *word;
        }
    }
    value
}

impl<'a> Reader<'a> {
    fn new(alloc: Global) -> Reader<'a> {
        Reader {
            alloc,
            picture: Picture {
                boxes: Vec::new(alloc),
                nodes: Vec::new(alloc),
                edges: Vec::new(alloc),
                unread: 0,
            },
            open: Vec::new(alloc),
            words: Vec::new(alloc),
            has_arrow: false,
            has_equals: false,
            is_list: false,
            list: Vec::new(alloc),
        }
    }

    fn take(&mut self, token: Token<'a>) -> Result<(), AllocError> {
        match token {
            Token::Word(word) if self.is_list => self.list.push(word)?,
            Token::Word(word) => self.take_word(word)?,
            Token::Arrow => self.has_arrow = true,
            Token::Equals => self.has_equals = !self.is_list,
            Token::OpenList => self.is_list = true,
            Token::CloseList => self.end_list()?,
            Token::Open => self.open_box()?,
            Token::Close => self.close_box(),
        }
        Ok(())
    }

    /// Takes a word outside a list. A word after `=` is the value of an attribute of the innermost box.
    fn take_word(&mut self, word: &'a [u8]) -> Result<(), AllocError> {
        if !self.has_equals {
            self.words.push(word)?;
            return Ok(());
        }
        let name = self.words.first().copied().unwrap_or(b"");
        match self.picture.boxes.last_mut() {
            Some(last) if name == b"label".as_slice() => last.1 = word,
            _ if name == b"style".as_slice() => {}
            _ => self.count_unread(),
        }
        self.end_statement();
        Ok(())
    }

    /// Ends a list of attributes: that of a node, that of an edge, or the attributes that all nodes or all edges have.
    fn end_list(&mut self) -> Result<(), AllocError> {
        let first = self.words.first().copied().unwrap_or(b"");
        let second = self.words.get(1).copied();
        match (self.has_arrow, second, self.words.len()) {
            (true, Some(second), 2) => self.picture.edges.push(Edge {
                from: first,
                to: second,
                tail: value_of(&self.list, b"taillabel"),
                head: value_of(&self.list, b"headlabel"),
                style: value_of(&self.list, b"style"),
            })?,
            (false, None, 1) => {
                if first != b"node".as_slice() && first != b"edge".as_slice() {
                    self.add_node(first)?;
                }
            }
            _ => self.count_unread(),
        }
        self.end_statement();
        Ok(())
    }

    fn add_node(&mut self, name: &'a [u8]) -> Result<(), AllocError> {
        let mut boxes = Vec::new(self.alloc);
        for around in &self.open {
            boxes.push(*around)?;
        }
        let label = value_of(&self.list, b"label");
        self.picture.nodes.push(Node { name, label, boxes })?;
        Ok(())
    }

    /// Begins a box. It has two words: what it is, and its name.
    fn open_box(&mut self) -> Result<(), AllocError> {
        let name = self.words.get(1).copied().unwrap_or(b"");
        if self.words.len() != 2 {
            self.count_unread();
        }
        self.picture.boxes.push((name, b""))?;
        self.open.push(name)?;
        self.end_statement();
        Ok(())
    }

    fn close_box(&mut self) {
        if self.open.pop().is_none() || !self.words.is_empty() {
            self.count_unread();
        }
        self.end_statement();
    }

    fn count_unread(&mut self) {
        self.picture.unread = self.picture.unread.wrapping_add(1);
    }

    fn end_statement(&mut self) {
        self.words.clear();
        self.list.clear();
        self.has_arrow = false;
        self.has_equals = false;
        self.is_list = false;
    }
}

/// The picture in the text. Takes memory in proportion to the text.
pub fn read<'a>(alloc: Global, text: &'a [u8]) -> Result<Picture<'a>, AllocError> {
    let mut reader = Reader::new(alloc);
    for token in &tokens_of(alloc, text)? {
        reader.take(*token)?;
    }
    if !reader.open.is_empty() {
        reader.count_unread();
    }
    Ok(reader.picture)
}
