//! What holds of the definitions alone.
ghost use Rattle.kept_document.specs.Agreement.{SitesAgree, SitesFound};

/// The written form of an expression has as many sites as the expression.
pub fn a_form_has_the_sites_of_its_expression()
    ensures { SitesAgree }
{}

/// The way to a site in the written form of an expression leads to the arguments of the expression's site of this number.
pub fn the_way_leads_to_the_site()
    ensures { SitesFound }
{}
