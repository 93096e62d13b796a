// Theorems on cores, components and core numbers.
ghost use Rattle.theory.specs.CoreLaws.{ComponentIsGreatest, CoreIsGreatest, CoreNumberIsGreatest, CoreSizesSumToCoreNumbers};

pub fn core_is_greatest()
    ensures { CoreIsGreatest }
{}

pub fn component_is_greatest()
    ensures { ComponentIsGreatest }
{}

pub fn core_number_is_greatest()
    ensures { CoreNumberIsGreatest }
{}

pub fn core_sizes_sum_to_core_numbers()
    ensures { CoreSizesSumToCoreNumbers }
{}
