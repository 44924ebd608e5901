//! That the orders of what versions, groups and databases say are total.
ghost use Rattle.std.specs.Prelude.{◌≡◌};
ghost use Rattle.std.specs.Cmp.{IsTotalOrder};
ghost use Rattle.std.specs.declared.cmp.Ordering.TheVariants.{Equal};
ghost use Rattle.vault_model.specs.declared.contents.GroupContent.{GroupContent};
ghost use Rattle.vault_model.specs.declared.metas.MetaSettings.{MetaSettings};
ghost use Rattle.vault_model.specs.Bare.{BareContent};
ghost use Rattle.vault_model.specs.Orders.{content_cmp, group_content_cmp, settings_cmp};

/// Of two contents one is below the other, or they are the same; and the orders go together.
pub fn total_orders()
    ensures versions { IsTotalOrder content_cmp }
    ensures one_version { (a b : BareContent) → content_cmp a b ≡ Equal → a ≡ b }
    ensures groups { IsTotalOrder group_content_cmp }
    ensures one_group { (a b : GroupContent) → group_content_cmp a b ≡ Equal → a ≡ b }
    ensures settings { IsTotalOrder settings_cmp }
    ensures one_setting { (a b : MetaSettings) → settings_cmp a b ≡ Equal → a ≡ b }
{}
