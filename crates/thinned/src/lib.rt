// Laws alone: a book without its retired rows answers as the book with them (K11).
#![tactic(auto)]
