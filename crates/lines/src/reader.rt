// A line handed out item by item.
ghost use Rattle.std.specs.Prelude.{◌≡◌, ℕ, ◌≤◌, List, [], length, IfSome, Decides, MatchOption};
ghost use Rattle.lines.specs.Items.{left, item_token, Handed};
ghost use Rattle.lines.specs.Tokens.{TokenAt};
ghost use Rattle.lines.specs.declared.written.Token.{Token};

use crate::item::Item;
use crate::place::Reader;
use crate::token::token;
use crate::written::Token;

impl<'a> Reader<'a> {
    pub fn new(line: &'a [u8]) -> Reader<'a>
        ensures line { result.line.now ≡ line.now }
        ensures place { result.at ≡ 0 }
    {
        Reader { line, at: 0 }
    }

    // What has not been handed out.
    #[tactic(auto, using(std::proofs::lemmas::List::take_rest))]
    pub(crate) fn rest(&self) -> &'a [u8]
        ensures { result.now ≡ left self.now }
    {
        &self.line[self.at..]
    }

    pub fn is_done(&self) -> bool
        ensures { Decides result (left self.now ≡ []) }
    {
        self.at == self.line.len()
    }

    // The next item; None, and nothing is handed out, where none stands there.
    pub fn next(&mut self) -> Option<Item<'a>>
        ensures line { self.new.line.now ≡ self.old.line.now }
        ensures handed { MatchOption result (self.new.at ≡ self.old.at) (λ i. Handed i self.old.line.now self.old.at self.new.at) }
        ensures sound { IfSome result (λ i. TokenAt (left self.old) (item_token i) (left self.new)) }
        ensures complete { (k : Token) (rest : List ℕ) → TokenAt (left self.old) k rest → MatchOption result ⊥ (λ i. (item_token i ≡ k) × (left self.new ≡ rest)) }
    {
        let text = self.rest();
        let (token, rest) = token(text)?;
        let at = self.at;
        let taken = text.len() - rest.len();
        self.at += taken;
        Some(Item::new(token, &text[..taken], at))
    }
}
