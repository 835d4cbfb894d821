//! The predictive machine: a stack of symbols, which one token after another uses up.

ghost use Rattle.std.specs.Prelude.{◌≡◌, ◌≢◌, ◌+◌, ◌<◌, ◌≤◌, ◌++◌, ◌∷◌, ◌⊎◌, ◌||◌, [], false, true, drop, length, reverse, take, IfErr, IfOk, OnOk};
ghost use Rattle.av_tree.specs.Classes.{bracket_of as bracket_of_class};
ghost use Rattle.av_tree.specs.Needs.{need_of};
ghost use Rattle.av_tree.specs.Sets.{is_same_class};
ghost use Rattle.av_tree.specs.Signs.{counts_sign as counts_sign_of};
ghost use Rattle.av_derive.specs.Derivation.{Derived, NoneBegins, NoneDerives, IsOnly, IsDeepAt, IsPlainAt, opened, signs_with};
ghost use Rattle.av_derive.specs.State.{Expanded, Fits, Shifted, Stands, StandsFresh, ahead as ahead_of};

use av_tree::table::{
    FileName, Name, Rule, Symbol, begins_expression, choose, counts_sign, fits, need, push_symbols,
};
use av_tree::{Bracket, Class, bracket_of, class_number, operation_in};
use std::alloc::{AllocError, AllocFailed, Global};

/// The greatest numbers of brackets that are open at once, and of signs and words of calculation in
/// one expression.
#[derive(Clone, Copy, Debug)]
pub struct Limits {
    pub brackets: u32,
    pub signs: u32,
}

/// A step of a derivation, in order.
#[derive(Clone, Copy)]
pub enum Event {
    /// The token of this number, whose spelling matters.
    Token(u32),
    /// A row, and the number of the token that stood ahead when it was chosen.
    Row { rule: Rule, at: u32 },
}

/// Why the machine stops.
#[derive(Clone, Copy, Debug, Drop, PartialEq)]
pub enum Stop {
    /// The token goes on no derivation.
    Wrong,
    /// A limit alone makes the token wrong, and it is a bracket or a counted sign or word.
    TooDeep,
    NoMemory,
}

impl From<AllocError> for Stop {
    ghost use Rattle.std.specs.Prelude.{◌≡◌};
    ghost use Rattle.av_derive.specs.declared.machine.Stop.TheVariants.{NoMemory};

    ghost from_gives = { λ _ stop. stop ≡ NoMemory };

    fn from(_fault: AllocError) -> Stop {
        Stop::NoMemory
    }
}

impl<T: Drop> From<AllocFailed<T>> for Stop {
    ghost use Rattle.std.specs.Prelude.{◌≡◌};
    ghost use Rattle.av_derive.specs.declared.machine.Stop.TheVariants.{NoMemory};

    ghost from_gives = { λ _ stop. stop ≡ NoMemory };

    fn from(_fault: AllocFailed<T>) -> Stop {
        Stop::NoMemory
    }
}

/// A derivation under way.
#[derive(Drop)]
pub struct Machine {
    // The symbols that the next tokens must follow, the next one last.
    stack: Vec<Symbol>,
    events: Vec<Event>,
    limits: Limits,
    // How many brackets are open, and how many signs the expression has.
    depth: u32,
    signs: u32,
    // Whether a row chosen before the next token passes a limit, and whether one counts a sign.
    over: bool,
    counted: bool,
}

impl Machine {
    /// A machine before the first token.
    ///
    /// # Errors
    ///
    /// Want of memory.
    pub fn new(alloc: Global, limits: Limits) -> Result<Machine, AllocError>
        ensures limits { IfOk result (λ machine. machine.limits ≡ limits) }
        ensures stands { IfOk result (λ machine. StandsFresh machine) }
    {
        let mut stack = Vec::new(alloc);
        stack.push(Symbol::Rows(Name::File(FileName::File)))?;
        Ok(Machine {
            stack,
            events: Vec::new(alloc),
            limits,
            depth: 0,
            signs: 0,
            over: false,
            counted: false,
        })
    }

    /// Takes the token of number `at`, where these are the classes of all tokens.
    ///
    /// # Errors
    ///
    /// The token is wrong, or memory lacks.
    pub fn take(&mut self, classes: &[Class], at: u32) -> Result<(), Stop>
        requires within { at < length classes.now }
        requires stands { Stands self.old classes.now at }
        ensures stands { OnOk result (Stands self.new classes.now (at + 1)) }
        ensures limits { OnOk result (self.new.limits ≡ self.old.limits) }
        ensures wrong { IfErr result (λ stop. stop ≢ Stop.NoMemory → NoneBegins self.old.limits (take (at + 1) classes.now)) }
        ensures deep { IfErr result (λ stop. stop ≡ Stop.TooDeep → IsDeepAt classes.now at) }
        ensures plain { IfErr result (λ stop. stop ≡ Stop.Wrong → IsPlainAt classes.now at) }
    {
        match self.expand(classes, at)? {
            Some(symbol) => self.shift(symbol, classes[at as usize], at),
            None => Err(Stop::Wrong),
        }
    }

    /// The derivation of all tokens, which were taken one by one and of which there are `count`.
    ///
    /// # Errors
    ///
    /// More tokens are needed (`Wrong`), or memory lacks.
    pub fn finish(mut self, classes: &[Class], count: u32) -> Result<Vec<Event>, Stop>
        requires all { count ≡ length classes.now }
        requires stands { Stands self classes.now count }
        ensures derived { IfOk result (λ events. Derived self.limits classes.now events.items) }
        ensures only { IfOk result (λ events. IsOnly classes.now events.items) }
        ensures wrong { IfErr result (λ stop. stop ≢ Stop.NoMemory → NoneDerives self.limits classes.now) }
        ensures plain { IfErr result (λ stop. stop ≢ Stop.TooDeep) }
    {
        match self.expand(classes, count)? {
            Some(_) => Err(Stop::Wrong),
            None => {
                if self.over {
                    Err(Stop::Wrong)
                } else {
                    Ok(self.events)
                }
            }
        }
    }

    // Expands names until a token stands next, which is taken off the stack; none where nothing is left.
    fn expand(&mut self, classes: &[Class], at: u32) -> Result<Option<Symbol>, AllocError>
        requires { Stands self.old classes.now at }
        ensures expanded { IfOk result (λ next. Expanded self.new next classes.now at) }
        ensures empty { IfOk result (λ next. next ≡ None → self.new.stack.items ≡ []) }
        ensures limits { self.new.limits ≡ self.old.limits }
        ensures brackets { self.new.depth ≡ self.old.depth }
    {
        let class = ahead(classes, at);
        self.over = false;
        self.counted = false;
        while let Some(symbol) = self.stack.pop() {
            match symbol {
                Symbol::Rows(name) => {
                    let rule = choose(name, class);
                    push_symbols(&mut self.stack, rule)?;
                    self.enter(rule, at)?;
                }
                Symbol::Sign(_) | Symbol::Word(_) | Symbol::Token(_) => return Ok(Some(symbol)),
            }
        }
        Ok(None)
    }

    // Notes a row, and whether it passes a limit.
    fn enter(&mut self, rule: Rule, at: u32) -> Result<(), AllocError>
        ensures stack { self.new.stack.items ≡ self.old.stack.items }
        ensures limits { self.new.limits ≡ self.old.limits }
        ensures brackets { self.new.depth ≡ self.old.depth }
        ensures events { OnOk result (self.new.events.items ≡ self.old.events.items ++ Event.Row rule at ∷ []) }
        ensures under { OnOk result (self.new.over ≡ false → self.old.over ≡ false) }
        ensures room { OnOk result (self.new.over ≡ false → self.old.depth + need_of rule ≤ self.old.limits.brackets) }
        ensures flag { OnOk result (self.new.counted ≡ (self.old.counted || counts_sign_of rule)) }
        ensures within { OnOk result (self.old.over ≡ false → self.old.depth + need_of rule ≤ self.old.limits.brackets → signs_with rule self.old.signs ≤ self.old.limits.signs → self.new.over ≡ false) }
        ensures counted { OnOk result (self.new.over ≡ false → self.new.signs ≡ signs_with rule self.old.signs) }
        ensures signs { OnOk result (self.new.over ≡ false → self.old.signs ≤ self.old.limits.signs → self.new.signs ≤ self.old.limits.signs) }
    {
        self.events.push(Event::Row { rule, at })?;
        if u64::from(self.depth) + u64::from(need(rule)) > u64::from(self.limits.brackets) {
            self.over = true;
        }
        if begins_expression(rule) {
            self.signs = 0;
        }
        if counts_sign(rule) {
            self.counted = true;
            if self.signs >= self.limits.signs {
                self.over = true;
            }
            self.signs = self.signs.saturating_add(1);
        }
        Ok(())
    }

    // Takes a token where a symbol of the stack asks for one.
    fn shift(&mut self, symbol: Symbol, class: Class, at: u32) -> Result<(), Stop>
        ensures shifted { OnOk result (Shifted self.old self.new symbol class at) }
        ensures wrong { IfErr result (λ stop. Fits symbol class → self.old.over ≡ false → opened (bracket_of_class class) self.old.depth ≤ self.old.limits.brackets → stop ≡ Stop.NoMemory) }
        ensures deep { IfErr result (λ stop. stop ≡ Stop.TooDeep → Fits symbol class × ((self.old.counted ≡ true) ⊎ (bracket_of_class class ≡ Bracket.Opens))) }
        ensures plain { IfErr result (λ stop. stop ≡ Stop.Wrong → Fits symbol class → (self.old.counted ≡ false) × (bracket_of_class class ≢ Bracket.Opens) × (self.old.over ≡ true)) }
    {
        let (fitting, spelled) = match symbol {
            Symbol::Sign(sign) => (is_same(class, Class::Sign(sign)), false),
            Symbol::Word(word) => (is_same(class, Class::Word(word)), false),
            Symbol::Token(test) => (fits(test, class), true),
            Symbol::Rows(_) => (false, false),
        };
        if !fitting {
            return Err(Stop::Wrong);
        }
        let bracket = bracket_of(class);
        if self.over || (bracket == Bracket::Opens && self.depth >= self.limits.brackets) {
            return Err(if self.counted || bracket == Bracket::Opens {
                Stop::TooDeep
            } else {
                Stop::Wrong
            });
        }
        match bracket {
            Bracket::Opens => self.depth += 1,
            Bracket::Closes => self.depth = self.depth.saturating_sub(1),
            Bracket::None => {}
        }
        if spelled {
            self.events.push(Event::Token(at))?;
        }
        Ok(())
    }
}

// Whether two classes are the same. Their numbers tell, in the place of all pairs of words.
fn is_same(left: Class, right: Class) -> bool
    ensures same { result ≡ true → left ≡ right }
    ensures other { result ≡ false → left ≢ right }
{
    have_same_numbers(left, right)
}

#[tactic(auto, unfolding(av_tree::specs::Sets::is_same_class))]
fn have_same_numbers(left: Class, right: Class) -> bool
    ensures { result ≡ is_same_class left right }
{
    class_number(left) == class_number(right) && operation_in(left) == operation_in(right)
}

// The class of the token of number `at`, or of the end.
fn ahead(classes: &[Class], at: u32) -> Class
    ensures { result ≡ ahead_of (drop at classes.now) }
{
    match classes.get(at as usize) {
        Some(class) => *class,
        None => Class::End,
    }
}
