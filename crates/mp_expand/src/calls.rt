//! Calls of macros: how one gets its arguments, and what stands in the text when it has them all.

ghost use Rattle.std.specs.Prelude.{◌≡◌, IfOk};
ghost use Rattle.mp_values.specs.Outcome.{Yields};
ghost use Rattle.mp_expand.specs.Calls as calls;
ghost use Rattle.mp_expand.specs.Expansion.{IsWhole};

use crate::expander::Expander;
use crate::request::{Behind, Call, Delimited, Need, Request, Until};
use crate::step::{Operand, Step, Want};
use mp_scaled::{NoMemory, Shared};
use mp_values::{Arguments, Delimiters, Items, Macro, ParamKind, Stop};
use std::alloc::Global;

/// What a parameter between delimiters takes.
fn delimited_in(kind: Option<ParamKind>) -> Option<Delimited>
    ensures { result ≡ calls.delimited_in kind }
{
    match kind {
        Some(ParamKind::Expr) => Some(Delimited::Expr),
        Some(ParamKind::Suffix) => Some(Delimited::Suffix),
        Some(ParamKind::Text) => Some(Delimited::Text),
        _ => None,
    }
}

/// The two delimiters are a pair.
pub(crate) fn are_pair(a: Delimiters, b: Delimiters) -> bool
    ensures { result ≡ calls.are_pair a b }
{
    a.left == b.left && a.right == b.right
}

impl Call {
    /// The parameter whose argument is next.
    fn parameter_next(&self) -> Option<ParamKind>
        ensures { result ≡ calls.parameter_next self.now }
    {
        self.called.get().params.as_slice().get(self.next).copied()
    }

    /// What it takes between delimiters, where it stands between them.
    pub(crate) fn argument_next(&self) -> Option<Delimited>
        ensures { result ≡ calls.argument_next self.now }
    {
        delimited_in(self.parameter_next())
    }

    /// One more argument was got.
    pub(crate) fn with_argument(
        mut self,
        alloc: Global,
        items: Shared<Items>,
    ) -> Result<Call, NoMemory>
        ensures { IfOk result (λ call. call ≡ calls.with_argument items self) }
    {
        let Some(next) = self.next.checked_add(1) else {
            return Err(NoMemory);
        };
        self.got.push(items)?;
        self.next = next;
        self.text = Items::new(alloc);
        Ok(self)
    }
}

impl Expander {
    /// A call has all its arguments: the body comes to stand in front of the text.
    pub(crate) fn whole(&mut self, call: Call) -> Result<Step, Stop>
        ensures exact { Yields result self.new (calls.whole call self.old) }
        ensures kept { self.new.budget ≡ self.old.budget }
        ensures whole { IsWhole result self.old self.new }
    {
        let body = call.called.get().body.share()?;
        self.input.reserve(1)?;
        self.input.push_text(body, call.got);
        Ok(Step::More)
    }

    /// A call goes on with the argument of its next parameter: it needs a left delimiter in front of it, asks for it,
    /// reads it as it stands, or is whole.
    pub(crate) fn go_on(&mut self, call: Call) -> Result<Step, Stop>
        ensures exact { Yields result self.new (calls.go_on call self.old) }
        ensures kept { self.new.budget ≡ self.old.budget }
        ensures whole { IsWhole result self.old self.new }
    {
        let Some(kind) = call.parameter_next() else {
            return self.whole(call);
        };
        match kind {
            ParamKind::Expr => self.open(call, Delimited::Expr),
            ParamKind::Suffix => self.open(call, Delimited::Suffix),
            ParamKind::Text => self.open(call, Delimited::Text),
            ParamKind::Primary => self.ask_last(call, Operand::Primary),
            ParamKind::Secondary => self.ask_last(call, Operand::Secondary),
            ParamKind::Tertiary => self.ask_last(call, Operand::Tertiary),
            ParamKind::BareExpr => self.ask_last(call, Operand::Expression),
            ParamKind::ExprOf => self.ask(call, Behind::Of, Want::Followed(Operand::Expression)),
            ParamKind::BareSuffix => self.ask_last(call, Operand::Suffix),
            ParamKind::BareText => self.read_text(call, Until::Statement),
        }
    }

    /// Calls a macro, with the arguments that its body has before the first parameter.
    pub fn call(&mut self, called: Shared<Macro>, got: Arguments) -> Result<Step, Stop>
        ensures exact { Yields result self.new (calls.call called got self.old) }
        ensures kept { self.new.budget ≡ self.old.budget }
        ensures whole { IsWhole result self.old self.new }
    {
        let text = Items::new(self.alloc);
        self.go_on(Call {
            called,
            got,
            next: 0,
            text,
        })
    }

    /// A call needs a left delimiter in front of its next argument.
    fn open(&mut self, call: Call, kind: Delimited) -> Result<Step, Stop>
        ensures exact { Yields result self.new (calls.opens call kind self.old) }
        ensures kept { self.new.budget ≡ self.old.budget }
        ensures whole { IsWhole result self.old self.new }
    {
        self.wait(Request::Call(call, Need::Opening(kind)))?;
        Ok(Step::More)
    }

    /// A call waits for the answer to what it asks for.
    fn ask(&mut self, call: Call, behind: Behind, want: Want) -> Result<Step, Stop>
        ensures exact { Yields result self.new (calls.ask call behind want self.old) }
        ensures kept { self.new.budget ≡ self.old.budget }
        ensures whole { IsWhole result self.old self.new }
    {
        self.request(Request::Call(call, Need::Answer(behind)), want)
    }

    /// It waits for the answer to what is asked for.
    pub(crate) fn request(&mut self, request: Request, want: Want) -> Result<Step, Stop>
        ensures exact { Yields result self.new (calls.ask_for request want self.old) }
        ensures kept { self.new.budget ≡ self.old.budget }
        ensures whole { IsWhole result self.old self.new }
    {
        self.enter()?;
        self.wait(request)?;
        Ok(Step::Want(want))
    }

    /// A call asks for its last argument, which stands without delimiters.
    pub(crate) fn ask_last(&mut self, call: Call, operand: Operand) -> Result<Step, Stop>
        ensures exact { Yields result self.new (calls.ask_last call operand self.old) }
        ensures kept { self.new.budget ≡ self.old.budget }
        ensures whole { IsWhole result self.old self.new }
    {
        self.ask(call, Behind::Anything, Want::Last(operand))
    }

    /// A call reads a text as it stands.
    fn read_text(&mut self, call: Call, until: Until) -> Result<Step, Stop>
        ensures exact { Yields result self.new (calls.read_text call until self.old) }
        ensures kept { self.new.budget ≡ self.old.budget }
        ensures whole { IsWhole result self.old self.new }
    {
        self.wait(Request::Call(call, Need::Text(until, 0)))?;
        Ok(Step::More)
    }

    /// The argument behind a left delimiter or a comma.
    pub(crate) fn argument(
        &mut self,
        call: Call,
        pair: Delimiters,
        kind: Delimited,
    ) -> Result<Step, Stop>
        ensures exact { Yields result self.new (calls.argument call pair kind self.old) }
        ensures kept { self.new.budget ≡ self.old.budget }
        ensures whole { IsWhole result self.old self.new }
    {
        let behind = Behind::Delimiter(pair);
        match kind {
            Delimited::Expr => self.ask(call, behind, Want::Followed(Operand::Expression)),
            Delimited::Suffix => self.ask(call, behind, Want::Followed(Operand::Suffix)),
            Delimited::Text => self.read_text(call, Until::Delimiter(pair)),
        }
    }
}
