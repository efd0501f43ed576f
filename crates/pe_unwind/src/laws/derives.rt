//! Laws of derived traits: `==` is equality of all fields, a default has zeros, a clone is its original.

ghost use Rattle.std.specs.Prelude.{◌≡◌};
ghost use Rattle.pe_unwind.specs.declared.register.Register.{Register};
ghost use Rattle.pe_unwind.specs.declared.function_table.RuntimeFunction.{RuntimeFunction};
ghost use Rattle.pe_unwind.specs.declared.scope_table.ScopeTableEntry.{ScopeTableEntry};
ghost use Rattle.pe_unwind.specs.declared.unwind_code.StackFrameOffset.{StackFrameOffset};
ghost use Rattle.pe_unwind.specs.declared.unwind_code.UnwindOperation.{UnwindOperation};
ghost use Rattle.pe_unwind.specs.declared.unwind_code.UnwindCode.{UnwindCode};
ghost use Rattle.pe_unwind.specs.declared.arm64.function.Arm64RuntimeFunction.{Arm64RuntimeFunction};
ghost use Rattle.pe_unwind.specs.declared.arm64.words.Arm64UnwindHeader.{Arm64UnwindHeader};
ghost use Rattle.pe_unwind.specs.declared.arm64.words.Arm64UnwindExtension.{Arm64UnwindExtension};
ghost use Rattle.pe_unwind.specs.declared.arm64.words.Arm64EpilogScope.{Arm64EpilogScope};
ghost use Rattle.pe_unwind.specs.declared.arm64.codes.Arm64CustomStackCase.{Arm64CustomStackCase};
ghost use Rattle.pe_unwind.specs.declared.arm64.codes.Arm64UnwindCode.{Arm64UnwindCode};
ghost use Rattle.pe_unwind.specs.declared.arm64.codes.Arm64UnwindCodeData.{Arm64UnwindCodeData};
ghost use Rattle.pe_unwind.specs.declared.unwind_info.UnwindHandler.{UnwindHandler};
ghost use Rattle.pe_unwind.specs.declared.unwind_code.UnwindCodeIterator.{UnwindCodeIterator};
ghost use Rattle.pe_unwind.specs.declared.unwind_info.UnwindInfo.{UnwindInfo};
ghost use Rattle.pe_unwind.specs.declared.arm64.info.Arm64ExceptionHandler.{Arm64ExceptionHandler};
ghost use Rattle.pe_unwind.specs.declared.arm64.info.Arm64UnwindInfo.{Arm64UnwindInfo};
ghost use Rattle.pe_core.specs.Traits.{IsEquality, ComparesBy, Copies};
ghost use Rattle.pe_unwind.specs.Arm64Record.{arm64_handler_view};
ghost use Rattle.pe_unwind.specs.UnwindRecord.{handler_view};

use crate::arm64::codes::{Arm64CustomStackCase, Arm64UnwindCode, Arm64UnwindCodeData};
use crate::arm64::function::Arm64RuntimeFunction;
use crate::arm64::info::{Arm64ExceptionHandler, Arm64UnwindInfo};
use crate::arm64::words::{Arm64EpilogScope, Arm64UnwindExtension, Arm64UnwindHeader};
use crate::function_table::RuntimeFunction;
use crate::register::Register;
use crate::scope_table::ScopeTableEntry;
use crate::unwind_code::{StackFrameOffset, UnwindCode, UnwindCodeIterator, UnwindOperation};
use crate::unwind_info::{UnwindHandler, UnwindInfo};

/// `==` compares all fields, and slices by their bytes.
pub fn equality_is_of_all_fields()
    ensures register { IsEquality ⟦<Register as PartialEq>⟧.eq }
    ensures runtime_function { IsEquality ⟦<RuntimeFunction as PartialEq>⟧.eq }
    ensures scope_table_entry { IsEquality ⟦<ScopeTableEntry as PartialEq>⟧.eq }
    ensures stack_frame_offset { IsEquality ⟦<StackFrameOffset as PartialEq>⟧.eq }
    ensures unwind_operation { IsEquality ⟦<UnwindOperation as PartialEq>⟧.eq }
    ensures unwind_code { IsEquality ⟦<UnwindCode as PartialEq>⟧.eq }
    ensures arm64_runtime_function { IsEquality ⟦<Arm64RuntimeFunction as PartialEq>⟧.eq }
    ensures arm64_unwind_header { IsEquality ⟦<Arm64UnwindHeader as PartialEq>⟧.eq }
    ensures arm64_unwind_extension { IsEquality ⟦<Arm64UnwindExtension as PartialEq>⟧.eq }
    ensures arm64_epilog_scope { IsEquality ⟦<Arm64EpilogScope as PartialEq>⟧.eq }
    ensures arm64_custom_stack_case { IsEquality ⟦<Arm64CustomStackCase as PartialEq>⟧.eq }
    ensures arm64_unwind_code { IsEquality ⟦<Arm64UnwindCode as PartialEq>⟧.eq }
    ensures arm64_unwind_code_data { IsEquality ⟦<Arm64UnwindCodeData as PartialEq>⟧.eq }
    ensures unwind_handler { ComparesBy handler_view ⟦<UnwindHandler<'static> as PartialEq>⟧.eq }
    ensures arm64_exception_handler { ComparesBy
        arm64_handler_view ⟦<Arm64ExceptionHandler<'static> as PartialEq>⟧.eq }
{}

/// A default has zeros in all fields.
pub fn defaults_are_zeros()
    ensures runtime_function { (x : RuntimeFunction) → ⟦<RuntimeFunction as Default>⟧.is_default x →
        x ≡ record { begin_address = 0; end_address = 0; unwind_info_address = 0 } }
    ensures scope_table_entry { (x : ScopeTableEntry) →
        ⟦<ScopeTableEntry as Default>⟧.is_default x →
        x ≡ record { begin = 0; end = 0; handler = 0; target = 0 } }
    ensures arm64_runtime_function { (x : Arm64RuntimeFunction) →
        ⟦<Arm64RuntimeFunction as Default>⟧.is_default x →
        x ≡ record { begin_address = 0; unwind_data = 0 } }
{}

/// A clone is equal to its original in all fields.
pub fn clones_are_their_originals()
    ensures register { Copies ⟦<Register as Clone>⟧.is_clone }
    ensures runtime_function { Copies ⟦<RuntimeFunction as Clone>⟧.is_clone }
    ensures scope_table_entry { Copies ⟦<ScopeTableEntry as Clone>⟧.is_clone }
    ensures stack_frame_offset { Copies ⟦<StackFrameOffset as Clone>⟧.is_clone }
    ensures unwind_operation { Copies ⟦<UnwindOperation as Clone>⟧.is_clone }
    ensures unwind_code { Copies ⟦<UnwindCode as Clone>⟧.is_clone }
    ensures arm64_runtime_function { Copies ⟦<Arm64RuntimeFunction as Clone>⟧.is_clone }
    ensures arm64_unwind_header { Copies ⟦<Arm64UnwindHeader as Clone>⟧.is_clone }
    ensures arm64_unwind_extension { Copies ⟦<Arm64UnwindExtension as Clone>⟧.is_clone }
    ensures arm64_epilog_scope { Copies ⟦<Arm64EpilogScope as Clone>⟧.is_clone }
    ensures arm64_custom_stack_case { Copies ⟦<Arm64CustomStackCase as Clone>⟧.is_clone }
    ensures arm64_unwind_code { Copies ⟦<Arm64UnwindCode as Clone>⟧.is_clone }
    ensures arm64_unwind_code_data { Copies ⟦<Arm64UnwindCodeData as Clone>⟧.is_clone }
    ensures unwind_handler { Copies ⟦<UnwindHandler<'static> as Clone>⟧.is_clone }
    ensures unwind_code_iterator { Copies ⟦<UnwindCodeIterator<'static> as Clone>⟧.is_clone }
    ensures unwind_info { Copies ⟦<UnwindInfo<'static> as Clone>⟧.is_clone }
    ensures arm64_exception_handler { Copies ⟦<Arm64ExceptionHandler<'static> as Clone>⟧.is_clone }
    ensures arm64_unwind_info { Copies ⟦<Arm64UnwindInfo<'static> as Clone>⟧.is_clone }
{}
