// Nodes, and the value and the depth of a formula, read from them.
ghost use Rattle.std.specs.Prelude.{◌≡◌, ℕ, true, ◌≤◌, ◌<◌, MatchOption};
ghost use Rattle.logic.specs.Formula.{Formula, value_of};
ghost use Rattle.logic.specs.Nodes.{joined, one_formula, formula_of};
ghost use Rattle.logic.specs.Interpretation.{value_at};
ghost use Rattle.logic.specs.Evaluation.{Evaluated, Unread, Measured, Unmeasured};
ghost use Rattle.nodes.specs.Node.{place, IsNode, NoNode, NodeAt, IsDeeper};

use logic::interpretation::Interpretation;
use logic::value::Value;

// A form of two operands.
#[derive(Clone, Copy)]
pub enum Form {
    And,
    Or,
    Then,
    Same,
}

// A node: an atom, "not" in front of its operand, or a form of two operands in front of them.
#[derive(Clone, Copy)]
pub enum Node {
    Atom(u32),
    Not,
    Two(Form),
}

impl Node {
    // The node with a number, if there is one; that there is none is no error, so this is no TryFrom.
    pub fn of(number: u8) -> Option<Node>
        ensures { MatchOption result (68 < number) (IsNode number) }
    {
        match number {
            0..=63 => Some(Node::Atom(number as u32)),
            64 => Some(Node::Not),
            65 => Some(Node::Two(Form::And)),
            66 => Some(Node::Two(Form::Or)),
            67 => Some(Node::Two(Form::Then)),
            68 => Some(Node::Two(Form::Same)),
            _ => None,
        }
    }
}

// The node at a place, if there is one.
fn node_at(nodes: &[u8], at: usize) -> Option<Node>
    ensures { MatchOption result (NoNode nodes.now at) (NodeAt nodes.now at) }
{
    Node::of(*nodes.get(at)?)
}

// What a form gives over its operands' values.
pub fn form_value(form: Form, left: Value, right: Value) -> Value
    ensures { (v : ℕ → Value) (f g : Formula) → left ≡ value_of v f → right ≡ value_of v g
        → result ≡ value_of v (joined (place form) f g) }
{
    match form {
        Form::And => left.and(right),
        Form::Or => left.or(right),
        Form::Then => left.then(right),
        Form::Same => left.same(right),
    }
}

// The value of the formula at a place of the nodes, if one stands there; the place moves behind it.
fn eval(nodes: &[u8], at: &mut usize, i: Interpretation) -> Option<Value>
    ensures { MatchOption result (Unread nodes.now at.old) (λ v. Evaluated (value_at i) nodes.now at.old v at.new) }
{
    let node = node_at(nodes, *at)?;
    *at += 1;
    match node {
        Node::Atom(atom) => Some(i.value(atom)),
        Node::Not => {
            let a = eval(nodes, at, i)?;
            Some(a.not())
        }
        Node::Two(form) => {
            let a = eval(nodes, at, i)?;
            let b = eval(nodes, at, i)?;
            Some(form_value(form, a, b))
        }
    }
}

// The value of a formula by its nodes; of a name alone without a call of eval.
pub fn formula_value(nodes: &[u8], i: Interpretation) -> Value
    ensures { (n : ℕ) → one_formula n nodes.now ≡ true
        → result ≡ value_of (value_at i) (formula_of nodes.now) }
{
    if let Some(Node::Atom(atom)) = node_at(nodes, 0) {
        return i.value(atom);
    }
    match eval(nodes, &mut 0, i) {
        Some(value) => value,
        None => Value::Unknown,
    }
}

// One deeper than the operands, if that is at most 16.
fn deeper(depth: u8) -> Option<u8>
    ensures { MatchOption result (16 ≤ depth) (IsDeeper depth) }
{
    if depth < 16 { Some(depth + 1) } else { None }
}

// The depth of the formula at a place of the nodes, if one of depth at most 16 over atoms below a number stands there;
// the place moves behind it.
fn measure(nodes: &[u8], at: &mut usize, atoms: usize) -> Option<u8>
    ensures { MatchOption result (Unmeasured atoms nodes.now at.old) (λ d. Measured atoms nodes.now at.old d at.new) }
{
    let node = node_at(nodes, *at)?;
    *at += 1;
    match node {
        Node::Atom(atom) => {
            if atoms <= atom as usize {
                return None;
            }
            Some(1)
        }
        Node::Not => {
            let a = measure(nodes, at, atoms)?;
            deeper(a)
        }
        Node::Two(_) => {
            let a = measure(nodes, at, atoms)?;
            let b = measure(nodes, at, atoms)?;
            deeper(a.max(b))
        }
    }
}

// Whether the nodes are exactly one formula of depth at most 16 over atoms below a number.
pub fn one_formula(nodes: &[u8], atoms: usize) -> bool
    ensures { result ≡ one_formula atoms nodes.now }
{
    let mut end = 0;
    match measure(nodes, &mut end, atoms) {
        Some(_) => end == nodes.len(),
        None => false,
    }
}
