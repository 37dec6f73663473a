// Laws alone: what evaluate and cell answer and leave on the sheet (01, 'Dense form and evaluation' and 'Single cells'), over any field that
// serves, and that one pass over the arrays gives it. The definitions stand in specs/.
#![tactic(auto)]
