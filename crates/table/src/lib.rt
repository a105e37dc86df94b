// The job table of document 01: the reader, and what a machine reads of an accepted table.
//
// `read` tries the refusals 1 to 3 on the contents, then walks the bodies for 4, 5, 6, 16, 17 and 18. The rest of the public
// functions read an accepted table, each in constant time but `starts`, which a run calls once.

#![tactic(auto)]

ghost use Rattle.std.specs.Prelude.{◌≡◌, ◌↔◌, ◌+◌, ◌*◌, ◌<◌, ◌≤◌, length, Ok};
ghost use Rattle.table.specs.Words.{functions, arity_at, nodes_at, nodes_before, a_at, b_at, c_at};
ghost use Rattle.table.specs.Nodes.{Decodes, arithmetic_of, node_of, node_at};
ghost use Rattle.table.specs.Walk.{fault_at, known, unknown, unused_of, call_shape, shape_of, shape_at, number_of, Readable, Walks};
ghost use Rattle.table.specs.Read.{refused, refusal_of, header, entry, contents, body_read, bodies, read_of, starts_of};
ghost use Rattle.table.specs.WellFormed.{Header, Contents, Located, WellFormed};

// 01, "Turned away by the input": the answer is the number with function and node.
// Kept: the numbers 1 to 18 are no enum; what may not change: `refused`, `number_of` and theorem `Unchanged` speak of numbers, as 01 does.
#[derive(Clone, Copy, Debug, PartialEq, Eq)]
pub struct Refusal {
    pub number: u32,
    pub function: usize,
    pub node: usize,
}

// 01, "Operations", in the order of their numbers 0 to 6.
#[derive(Clone, Copy, Debug, PartialEq, Eq)]
pub enum Operation {
    Add,
    Subtract,
    Multiply,
    Divide,
    Remainder,
    Less,
    Equal,
}

// A number of no operation.
#[derive(Clone, Copy, Debug, PartialEq, Eq)]
pub struct UnknownOperation(pub u32);

impl TryFrom<u32> for Operation {
    type Error = UnknownOperation;

    ghost try_from_gives = { Decodes };

    fn try_from(number: u32) -> Result<Self, UnknownOperation> {
        match number {
            0 => Ok(Operation::Add),
            1 => Ok(Operation::Subtract),
            2 => Ok(Operation::Multiply),
            3 => Ok(Operation::Divide),
            4 => Ok(Operation::Remainder),
            5 => Ok(Operation::Less),
            6 => Ok(Operation::Equal),
            _ => Err(UnknownOperation(number)),
        }
    }
}

// A node by its tag. The first child is the next node; the positions here are those of the second and the third.
#[derive(Clone, Copy)]
pub enum Node {
    Constant(u64),
    Local(usize),
    Arithmetic(Operation, usize),
    Choose(usize, usize),
    Let(usize),
    Call(usize, usize, usize),
    Both(usize, usize),
    // A tag or an operation above 6: in no accepted table.
    Unknown,
}

// Where a function's body stands: its first word, and its nodes.
#[derive(Clone, Copy)]
pub struct Body {
    pub start: usize,
    pub nodes: usize,
}

// What the walk looks at in a node's own words.
// Kept: `known` is a flag beside the rest; no plainer as an Option, because `walk_of` and `Subtree` read the last two of every shape.
#[derive(Clone, Copy)]
pub struct Shape {
    // The tag, the operation and the function are known.
    pub known: bool,
    // The unused words are 0.
    pub clear: bool,
    // The slot is bound, and no more than 16 locals would be.
    pub bound: bool,
    pub children: usize,
    // How many locals are bound at the last child; at the others as many as at the node.
    pub last: usize,
}

// Where the walk of a subtree stops: the number, and the node that is told.
// Kept: the number, as in `Refusal`.
#[derive(Clone, Copy, Debug, PartialEq, Eq)]
pub struct Fault {
    pub number: u32,
    pub node: usize,
}

impl Fault {
    // The refusal that it is of the body's function.
    fn of(self, function: usize) -> Refusal
        ensures { result ≡ refusal_of function self }
    {
        Refusal {
            number: self.number,
            function,
            node: self.node,
        }
    }
}

#[tactic(auto, unfolding(crate::specs::Nodes::arithmetic_of))]
fn arithmetic(operation: u32, second: usize) -> Node
    ensures { result ≡ arithmetic_of operation second }
{
    match Operation::try_from(operation) {
        Ok(operation) => Node::Arithmetic(operation, second),
        Err(_) => Node::Unknown,
    }
}

// A node by its words.
#[tactic(auto, unfolding(crate::specs::Nodes::node_of))]
fn node_of(tag: u32, a: u32, b: u32, c: u32) -> Node
    ensures { result ≡ node_of tag a b c }
{
    let first = a as usize;
    let second = b as usize;
    let third = c as usize;
    match tag {
        0 => Node::Constant(u64::from(a) + 4294967296 * u64::from(b)),
        1 => Node::Local(first),
        2 => arithmetic(a, second),
        3 => Node::Choose(second, third),
        4 => Node::Let(second),
        5 => Node::Call(first, second, third),
        6 => Node::Both(second, third),
        _ => Node::Unknown,
    }
}

// The node at a position of the body that starts at a word.
pub fn node_at(words: &[u32], start: usize, p: usize) -> Node
    requires { start + 4 * p + 4 ≤ length words.now }
    ensures { result ≡ node_at words.now start p }
{
    let at = start + 4 * p;
    node_of(words[at], words[at + 1], words[at + 2], words[at + 3])
}

// A function's arity, in the contents.
// Kept: this and the next four differ in a constant; no plainer with a const parameter, because each is one index, named by what it reads.
pub fn arity(words: &[u32], f: usize) -> usize
    requires { 2 * f + 1 < length words.now }
    ensures { result ≡ arity_at words.now f }
{
    words[2 * f + 1] as usize
}

// A function's node count, in the contents.
pub fn nodes(words: &[u32], f: usize) -> usize
    requires { 2 * f + 2 < length words.now }
    ensures { result ≡ nodes_at words.now f }
{
    words[2 * f + 2] as usize
}

// The words a, b and c of a node: the function that a call calls, and the positions of the second and the third child.
pub fn called(words: &[u32], start: usize, p: usize) -> usize
    requires { start + 4 * p + 4 ≤ length words.now }
    ensures { result ≡ a_at words.now start p }
{
    words[start + 4 * p + 1] as usize
}

pub fn second(words: &[u32], start: usize, p: usize) -> usize
    requires { start + 4 * p + 4 ≤ length words.now }
    ensures { result ≡ b_at words.now start p }
{
    words[start + 4 * p + 2] as usize
}

pub fn third(words: &[u32], start: usize, p: usize) -> usize
    requires { start + 4 * p + 4 ≤ length words.now }
    ensures { result ≡ c_at words.now start p }
{
    words[start + 4 * p + 3] as usize
}

// Whether the words are 0 that a call of arity n leaves unused.
#[tactic(auto, unfolding(crate::specs::Walk::unused_of))]
fn call_clear(n: usize, b: usize, c: usize) -> bool
    ensures { result ≡ unused_of n b c }
{
    match n {
        0 | 1 => b == 0 && c == 0,
        2 => c == 0,
        _ => true,
    }
}

// A node that is known.
fn row(clear: bool, bound: bool, children: usize, last: usize) -> Shape
    ensures { result ≡ known clear bound children last }
{
    Shape {
        known: true,
        clear,
        bound,
        children,
        last,
    }
}

// A node that is not.
fn no_row(k: usize) -> Shape
    ensures { result ≡ unknown k }
{
    Shape {
        known: false,
        clear: true,
        bound: true,
        children: 0,
        last: k,
    }
}

#[tactic(auto, unfolding(crate::specs::Walk::call_shape))]
fn call_row(words: &[u32], f: usize, b: usize, c: usize, k: usize) -> Shape
    requires { 2 * functions words.now < length words.now }
    ensures { result ≡ call_shape words.now f b c k }
{
    if f < words[0] as usize {
        let n = arity(words, f);
        row(call_clear(n, b, c), true, n, k)
    } else {
        no_row(k)
    }
}

// What a node's own words ask, with k locals bound.
#[tactic(auto, unfolding(crate::specs::Walk::shape_of))]
fn shape_of(words: &[u32], node: Node, a: usize, b: usize, c: usize, k: usize) -> Shape
    requires { (2 * functions words.now < length words.now) × (k ≤ 16) }
    ensures { result ≡ shape_of words.now a b c k node }
{
    match node {
        Node::Constant(_) => row(c == 0, true, 0, k),
        Node::Local(slot) => row(b == 0 && c == 0, slot < k, 0, k),
        Node::Arithmetic(_, _) => row(c == 0, true, 2, k),
        Node::Choose(_, _) => row(a == 0, true, 3, k),
        Node::Let(_) => row(a == 0 && c == 0, k + 1 <= 16, 2, k + 1),
        Node::Call(f, _, _) => call_row(words, f, b, c, k),
        Node::Both(_, _) => row(a == 0, k + 2 <= 16, 3, k + 2),
        Node::Unknown => no_row(k),
    }
}

fn shape_at(words: &[u32], start: usize, p: usize, k: usize) -> Shape
    requires { (start + 4 * p + 4 ≤ length words.now) × (2 * functions words.now < length words.now) × (k ≤ 16) }
    ensures { result ≡ shape_at words.now start p k }
{
    let node = node_at(words, start, p);
    let a = called(words, start, p);
    let b = second(words, start, p);
    let c = third(words, start, p);
    shape_of(words, node, a, b, c, k)
}

// The number that a node's own words and its level are refused by, the first of 4, 16, 5 and 6.
fn number(shape: Shape, level: usize) -> Option<u32>
    ensures { result ≡ number_of shape level }
{
    if !shape.known {
        return Some(4);
    }
    if !shape.clear {
        return Some(16);
    }
    if !shape.bound {
        return Some(5);
    }
    if level <= 64 { None } else { Some(6) }
}

fn fault_at(number: u32, node: usize) -> Result<usize, Fault>
    ensures { result ≡ fault_at number node }
{
    Err(Fault { number, node })
}

// The position after the subtree at p, with k locals bound, at a level; or its first fault.
fn walk(words: &[u32], body: Body, level: usize, p: usize, k: usize) -> Result<usize, Fault>
    requires { Readable words.now body × (k ≤ 16) × (level ≤ 65) }
    ensures { Walks words.now body level p k result }
{
    let start = body.start;
    if body.nodes <= p {
        return fault_at(18, p);
    }
    let shape = shape_at(words, start, p, k);
    if let Some(refused) = number(shape, level) {
        return fault_at(refused, p);
    }
    let children = shape.children;
    let after = p + 1;
    if children == 0 {
        return Ok(after);
    }
    let m = walk(words, body, level + 1, after, k)?;
    if children == 1 {
        return Ok(m);
    }
    let b = second(words, start, p);
    if b != m {
        return fault_at(17, p);
    }
    if children == 2 {
        return walk(words, body, level + 1, b, shape.last);
    }
    let n = walk(words, body, level + 1, b, k)?;
    let c = third(words, start, p);
    if c != n {
        return fault_at(17, p);
    }
    walk(words, body, level + 1, c, shape.last)
}

fn refuse(number: u32, function: usize, node: usize) -> Result<(), Refusal>
    ensures { result ≡ refused number function node }
{
    Err(Refusal {
        number,
        function,
        node,
    })
}

// Refusal 1.
#[tactic(auto, unfolding(crate::specs::Read::header))]
fn header_read(words: &[u32]) -> Result<(), Refusal>
    ensures { result ≡ header words.now }
{
    if words.len() < 1 {
        return refuse(1, 0, 0);
    }
    let functions = words[0] as usize;
    if functions < 1 {
        return refuse(1, 0, 0);
    }
    if 64 < functions {
        return refuse(1, 0, 0);
    }
    if words.len() < 1 + 2 * functions {
        return refuse(1, 0, 0);
    }
    Ok(())
}

// Refusal 2 for function f: whether its entry is good, where `sum` counts the nodes up to its own.
#[tactic(auto, unfolding(crate::specs::Read::entry))]
fn entry_read(words: &[u32], f: usize, sum: usize) -> Result<(), Refusal>
    requires { (2 * f + 2 < length words.now) × (sum ≡ nodes_before words.now f + nodes_at words.now f) }
    ensures { result ≡ entry words.now f }
{
    if 3 < arity(words, f) {
        return refuse(2, f, 0);
    }
    if nodes(words, f) < 1 {
        return refuse(2, f, 0);
    }
    if 4000 < sum {
        return refuse(2, f, 0);
    }
    Ok(())
}

// Refusals 2 and 3.
fn contents_read(words: &[u32]) -> Result<(), Refusal>
    requires { Header words.now }
    ensures { result ≡ contents words.now }
{
    let functions = words[0] as usize;
    let mut sum = 0;
    for f in 0..functions {
        sum += nodes(words, f);
        entry_read(words, f, sum)?;
    }
    if words.len() != 1 + 2 * functions + 4 * sum {
        return refuse(3, 0, 0);
    }
    Ok(())
}

// Refusals 4, 5, 6, 16, 17 and 18 for the body of function f, which starts at a word.
fn body_read(words: &[u32], f: usize, start: usize) -> Result<(), Refusal>
    requires { Located words.now f start }
    ensures { result ≡ body_read words.now f }
{
    let n = nodes(words, f);
    match walk(words, Body { start, nodes: n }, 1, 0, arity(words, f)) {
        Ok(q) if q == n => Ok(()),
        Ok(q) => refuse(18, f, q),
        Err(fault) => Err(fault.of(f)),
    }
}

// The same for all bodies: the walk takes the functions in order.
fn bodies_read(words: &[u32]) -> Result<(), Refusal>
    requires { Contents words.now }
    ensures { result ≡ bodies words.now }
{
    let functions = words[0] as usize;
    let mut start = 1 + 2 * functions;
    for f in 0..functions {
        body_read(words, f, start)?;
        start += 4 * nodes(words, f);
    }
    Ok(())
}

// Accepted, or refused with its number, function and node: 01's refusals 1 to 6 and 02's 16 to 18, for any words.
pub fn read(words: &[u32]) -> Result<(), Refusal>
    ensures answer { result ≡ read_of words.now }
    ensures assures { (result ≡ Ok tt) ↔ WellFormed words.now }
{
    header_read(words)?;
    contents_read(words)?;
    bodies_read(words)
}

// Where the bodies of an accepted table start, by function, with 0 past the last.
pub fn starts(words: &[u32]) -> [usize; 64]
    requires { WellFormed words.now }
    ensures { result ≡ starts_of words.now }
{
    let functions = words[0] as usize;
    let mut found = [0usize; 64];
    let mut start = 1 + 2 * functions;
    for f in 0..functions {
        found[f] = start;
        start += 4 * nodes(words, f);
    }
    found
}
