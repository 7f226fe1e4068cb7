//! The names of operators and of built-in calls.

ghost use Rattle.std.specs.Prelude.{◌≡◌};
ghost use Rattle.ck_values.specs.OperatorNames.{operator_name};
ghost use Rattle.code_listing.specs.Names.{unary_name, native_name};

use ck_typed::Native;
use ck_values::{Op1, Op2};

/// The name of an operator of one operand.
pub(crate) fn unary_name(operator: Op1) -> &'static [u8]
    ensures { result.now ≡ unary_name operator }
{
    match operator {
        Op1::NegInt => b"neg.i",
        Op1::NegFloat => b"neg.f",
        Op1::NegDur => b"neg.d",
        Op1::NotInt => b"not.i",
        Op1::BoolInt => b"bool.i",
        Op1::WidenInt => b"widen.i",
        Op1::CutFloat => b"cut.f",
    }
}

/// The name of an operator of two operands.
pub(crate) fn operator_name(operator: Op2) -> &'static [u8]
    ensures { result.now ≡ operator_name operator }
{
    match operator {
        Op2::AddIntInt => b"add.i.i",
        Op2::SubIntInt => b"sub.i.i",
        Op2::MulIntInt => b"mul.i.i",
        Op2::DivIntInt => b"div.i.i",
        Op2::ModIntInt => b"mod.i.i",
        Op2::AddFloatFloat => b"add.f.f",
        Op2::SubFloatFloat => b"sub.f.f",
        Op2::MulFloatFloat => b"mul.f.f",
        Op2::DivFloatFloat => b"div.f.f",
        Op2::ModFloatFloat => b"mod.f.f",
        Op2::AndIntInt => b"and.i.i",
        Op2::OrIntInt => b"or.i.i",
        Op2::XorIntInt => b"xor.i.i",
        Op2::ShlIntInt => b"shl.i.i",
        Op2::ShrIntInt => b"shr.i.i",
        Op2::AddDurDur => b"add.d.d",
        Op2::SubDurDur => b"sub.d.d",
        Op2::AddTimeDur => b"add.t.d",
        Op2::AddDurTime => b"add.d.t",
        Op2::SubTimeDur => b"sub.t.d",
        Op2::SubTimeTime => b"sub.t.t",
        Op2::MulIntDur => b"mul.i.d",
        Op2::MulFloatDur => b"mul.f.d",
        Op2::MulDurInt => b"mul.d.i",
        Op2::MulDurFloat => b"mul.d.f",
        Op2::DivDurInt => b"div.d.i",
        Op2::DivDurFloat => b"div.d.f",
        Op2::DivDurDur => b"div.d.d",
        Op2::DivTimeDur => b"div.t.d",
        Op2::ModDurDur => b"mod.d.d",
        Op2::ModTimeDur => b"mod.t.d",
        Op2::AddTextText => b"add.s.s",
        Op2::AddTextInt => b"add.s.i",
        Op2::AddTextFloat => b"add.s.f",
        Op2::AddIntText => b"add.i.s",
        Op2::AddFloatText => b"add.f.s",
        Op2::EqIntInt => b"eq.i.i",
        Op2::EqFloatFloat => b"eq.f.f",
        Op2::EqDurDur => b"eq.d.d",
        Op2::EqTimeTime => b"eq.t.t",
        Op2::EqTextText => b"eq.s.s",
        Op2::EqRefRef => b"eq.r.r",
        Op2::EqShredShred => b"eq.h.h",
        Op2::NeIntInt => b"ne.i.i",
        Op2::NeFloatFloat => b"ne.f.f",
        Op2::NeDurDur => b"ne.d.d",
        Op2::NeTimeTime => b"ne.t.t",
        Op2::NeTextText => b"ne.s.s",
        Op2::NeRefRef => b"ne.r.r",
        Op2::NeShredShred => b"ne.h.h",
        Op2::LtIntInt => b"lt.i.i",
        Op2::LtFloatFloat => b"lt.f.f",
        Op2::LtDurDur => b"lt.d.d",
        Op2::LtTimeTime => b"lt.t.t",
        Op2::GtIntInt => b"gt.i.i",
        Op2::GtFloatFloat => b"gt.f.f",
        Op2::GtDurDur => b"gt.d.d",
        Op2::GtTimeTime => b"gt.t.t",
        Op2::LeIntInt => b"le.i.i",
        Op2::LeFloatFloat => b"le.f.f",
        Op2::LeDurDur => b"le.d.d",
        Op2::LeTimeTime => b"le.t.t",
        Op2::GeIntInt => b"ge.i.i",
        Op2::GeFloatFloat => b"ge.f.f",
        Op2::GeDurDur => b"ge.d.d",
        Op2::GeTimeTime => b"ge.t.t",
    }
}

/// The name of a built-in call.
pub(crate) fn native_name(native: Native) -> &'static [u8]
    ensures { result.now ≡ native_name native }
{
    match native {
        Native::ShredId => b"Shred.id",
        Native::Signal => b"Event.signal",
        Native::Broadcast => b"Event.broadcast",
        Native::Remove => b"Machine.remove",
        Native::Size => b"Array.size",
        Native::Clear => b"Array.clear",
        Native::Length => b"String.length",
        Native::CharAt => b"String.charAt",
        Native::Substring => b"String.substring",
        Native::Abs => b"Std.abs",
        Native::Fabs => b"Std.fabs",
        Native::Random2 => b"Math.random2",
        Native::Random2f => b"Math.random2f",
        Native::Srandom => b"Math.srandom",
        Native::KeyOn => b"Ugen.keyOn",
        Native::KeyOff => b"Ugen.keyOff",
        Native::KeyOnWhere => b"Ugen.keyOn.i",
        Native::KeyOffWhere => b"Ugen.keyOff.i",
        Native::SetAdsr => b"Ugen.set",
    }
}
